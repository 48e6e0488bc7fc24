//! Calling `agent`: one agent over its tape, on which each of its moves begins and ends.
ghost use Rattle.model.specs.Timetable.{Timetable};
ghost use Rattle.depgraph.specs.AgentParts.{IsPartOf};
ghost use Rattle.agent.specs.Agents.{Starts};

use agent::{Agent, Refusal, Tape};
use grid::Cell;

/// Begins the agent's next move where nothing refuses it, and answers the cell that it enters.
pub fn begin_move<T: Tape>(agent: &mut Agent<'_, T>) -> Result<Cell, Refusal>
    ensures { (tt : Timetable) → IsPartOf tt agent.old.part
        → Starts T.state T.may_write tt agent.old agent.new result }
{
    agent.start()
}
