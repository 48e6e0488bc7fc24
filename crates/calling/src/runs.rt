//! Calling `runner`, which passes `executor` on: all agents of a plan, event by event or at once.
ghost use Rattle.std.specs.Prelude.{map, IfOk};
ghost use Rattle.model.specs.Replies.{answer_of};
ghost use Rattle.executor.specs.SafeRuns.{AreAnswered};

use depgraph::{Graph, OutOfMemory};
use plan::CheckedPlan;
use runner::{Event, Reply, run};
use std::alloc::Global;

/// The replies to the events of a run of a plan: the run is safe whatever the events are.
pub fn replies_to(
    alloc: Global,
    plan: &CheckedPlan,
    events: &[Event],
) -> Result<Vec<Reply>, OutOfMemory>
    ensures { IfOk result
        (λ replies. AreAnswered plan.now.timetable events.now (map answer_of replies.items)) }
{
    let graph = Graph::build(alloc, plan)?;
    run(alloc, &graph, events)
}
