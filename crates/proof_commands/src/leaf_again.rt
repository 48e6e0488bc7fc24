//! The leaf for which a proof is refused.
ghost use Rattle.std.specs.Prelude.{IfSome};
ghost use Rattle.proof_commands.specs.LeafShown.{ReadsLeaf};

use crate::ends::ends_of_agents;
use crate::optimal_command::read_on_map;
use proof_check::{LowLeaf, leaf_at};
use std::alloc::Global;
use std::io::Read;
use text_io::Counted;

/// Reads what `perform` reads, but the proof only up to the line with this number, and shows the
/// leaf there. Where that line can't be that of a leaf that is too low, or anything else is faulty,
/// there is none.
pub fn read_leaf<M: Read, P: Read, F: Read>(
    alloc: Global,
    map: &mut Counted<M>,
    plan: &mut Counted<P>,
    proof: &mut Counted<F>,
    number: u64,
) -> Option<LowLeaf>
    ensures { IfSome result
        (ReadsLeaf M.remaining P.remaining F.remaining number map.old map.new plan.old plan.new
        proof.old proof.new) }
{
    let Ok(on_map) = read_on_map(alloc, map, plan) else {
        return None;
    };
    let Ok(ends) = ends_of_agents(alloc, &on_map.plan) else {
        return None;
    };
    match leaf_at(alloc, &on_map.map, ends, proof, number) {
        Ok(leaf) => Some(leaf),
        Err(_) => None,
    }
}
