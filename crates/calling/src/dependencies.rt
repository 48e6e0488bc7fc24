//! Calling `depgraph`: which move of a checked plan waits for which.
ghost use Rattle.std.specs.Prelude.{◌≡◌, IfOk, option_map};
ghost use Rattle.model.specs.Timetable.{moves, track_of};

use depgraph::{Dependencies, OutOfMemory};
use plan::CheckedPlan;
use std::alloc::Global;

/// How many moves an agent of the plan makes; `None` where there is no such agent.
pub fn moves_of(alloc: Global, plan: &CheckedPlan, agent: u32) -> Result<Option<u32>, OutOfMemory>
    ensures { IfOk result (λ count. count ≡ option_map moves (track_of plan.now.timetable agent)) }
{
    let dependencies = Dependencies::build(alloc, plan)?;
    Ok(dependencies.moves(agent))
}
