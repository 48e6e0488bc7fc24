//! The leaf of a proof that is too low, read once more.
use command_line::OptimalLine;
use explain::open_again;
use proof_commands::{leaf_text, least_cost, read_leaf};
use std::rt::Files;
use text_io::{Counted, FaultName, FaultWords};

/// What the leaf of a fault says to people, where the fault is that it is too low, and all files
/// are read as before.
// Compiled by itself, for its room on the stack.
#[inline(never)]
pub(crate) fn leaf_again<R: Files + AllocGlobal>(
    rt: &R,
    line: &OptimalLine,
    words: &FaultWords,
) -> Option<String> {
    let (FaultName::LeafTooLow, [number, cost]) = (words.fault(), words.numbers()) else {
        return None;
    };
    let mut map = Counted::new(open_again(rt, &line.map)?);
    let mut plan = Counted::new(open_again(rt, &line.plan)?);
    let mut proof = Counted::new(open_again(rt, &line.proof)?);
    let leaf = read_leaf(rt.alloc(), &mut map, &mut plan, &mut proof, *number)?;
    if least_cost(&leaf) != *cost {
        return None;
    }
    leaf_text(rt.alloc(), &leaf).ok()
}
