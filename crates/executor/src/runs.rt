//! Runs of whole lists of events.
ghost use Rattle.std.specs.Prelude.{map, IfOk};
ghost use Rattle.model.specs.Replies.{answer_of};
ghost use Rattle.executor.specs.SafeRuns.{AreAnswered, AreAnsweredAt};

use crate::Runner;
use depgraph::Graph;
use model::{Event, Reply, Version};
use std::alloc::Global;
use text_io::OutOfMemory;

/// The replies to events, one for each, when all agents of a graph begin at their starts and say
/// messages of version 1.
pub fn run(alloc: Global, graph: &Graph, events: &[Event]) -> Result<Vec<Reply>, OutOfMemory>
    ensures { IfOk result
        (λ replies. AreAnswered graph.now events.now (map answer_of replies.items)) }
{
    run_with(alloc, graph, Version::One, events)
}

/// The same with messages of a version.
pub fn run_with(
    alloc: Global,
    graph: &Graph,
    version: Version,
    events: &[Event],
) -> Result<Vec<Reply>, OutOfMemory>
    ensures { IfOk result
        (λ replies. AreAnsweredAt version graph.now events.now (map answer_of replies.items)) }
{
    model::laws::every_run_is_safe();
    model::laws::rotations_never_begin();
    let mut runner = Runner::with_version(alloc, graph, version)?;
    let mut replies = Vec::with_capacity(alloc, events.len())?;
    'events: for event in events {
        let reply = runner.step(*event)?;
        let Ok(()) = replies.push(reply) else {
            return Err(OutOfMemory);
        };
    }
    Ok(replies)
}
