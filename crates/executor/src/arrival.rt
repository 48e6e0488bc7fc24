//! Whether all agents of a run are at their ends.
ghost use Rattle.std.specs.Prelude.{◌≡◌, ◌≤◌, ◌↔◌, length, true};
ghost use Rattle.executor.specs.Code.Waiting.{HasStopped, TellsArrival};

use agent::{Agent, CountedTape};
use depgraph::Dependencies;

/// Whether an agent has finished all its moves, and stands.
fn has_arrived(graph: &Dependencies, agent: &Agent<'_, CountedTape>, id: u32) -> bool
    ensures { result ≡ true ↔ HasStopped graph.now id agent.now }
{
    match graph.moves(id) {
        Some(moves) => agent.done() == moves && !agent.is_moving(),
        None => true,
    }
}

/// Whether every agent has.
pub(crate) fn have_arrived(graph: &Dependencies, agents: &[Agent<'_, CountedTape>]) -> bool
    requires count { length agents.now ≡ length graph.now.tracks }
    requires few { length agents.now ≤ 10000 }
    ensures { TellsArrival graph.now agents.now result }
{
    for id in 0..agents.len() {
        if !has_arrived(graph, &agents[id], id as u32) {
            return false;
        }
    }
    true
}
