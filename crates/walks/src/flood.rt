//! The lengths of the shortest walks from a cell, up to that of the goal.
use crate::field::Field;
use crate::keys::STRAIGHT;
use crate::wave::Wave;
use grid::Cell;
use std::alloc::{AllocError, Global};

/// No shortest walk on a map leads through more buckets: for each diagonal step it leaves out two
/// cells of its own.
const MOST_BUCKETS: u64 = 4_194_304;

/// Lowers the keys from the start on, until that of the goal is the key of a shortest walk: then
/// each key that is not greater is one too, and no greater key will fall below it. It is compiled
/// by itself, so that what each step needs stays in registers.
#[inline(never)]
pub(crate) fn flood(
    alloc: Global,
    field: &mut Field,
    start: Cell,
    goal: Cell,
) -> Result<(), AllocError> {
    let mut wave = Wave::from_start(alloc, start)?;
    let mut now = Vec::new(alloc);
    for bucket in 1..MOST_BUCKETS {
        let from = bucket * STRAIGHT;
        // No step leads into a bucket that is over.
        let is_reached = field
            .key(goal)
            .is_some_and(|key| !key.is_closed() && !key.is_from(from));
        if is_reached || wave.advance(&mut now, from + 2 * STRAIGHT) {
            break;
        }
        for cell in &now {
            field.settle_from(*cell, from, &mut wave)?;
        }
    }
    Ok(())
}
