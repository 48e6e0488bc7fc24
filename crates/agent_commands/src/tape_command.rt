//! `mapf tape`: says what the tape of an agent keeps.
ghost use Rattle.std.specs.Prelude.{◌≡◌, MatchResult};
ghost use Rattle.ending.specs.Ending.{EndsAndTells, end_of};
ghost use Rattle.agent_commands.specs.TapeCommand.{AnswersTape, EndsByTape};
ghost use Rattle.agent_commands.specs.TapeCommand.{EndsWithoutTape, Inspects};
ghost use Rattle.agent_commands.specs.Code.Reports.{IsReported, outcome_of};

use crate::agent_fault::AgentFault;
use crate::agent_part::read_part;
use crate::tape_report::{TapeReport, read_report, write_report};
use agent::OpenFault;
use ending::{Ending, Status, conclude, finish};
use std::alloc::Global;
use std::io::{Read, Write};
use text_io::Counted;

/// As `perform`, with a fault's line on `err`. The answer is the exit status, which stays where
/// `err` fails.
pub fn tape_cmd<M: Read, P: Read, T: Read, W: Write, E: Write>(
    alloc: Global,
    map: &mut Counted<M>,
    plan: &mut Counted<P>,
    id: u16,
    tape: &mut Counted<T>,
    out: &mut Counted<W>,
    err: &mut Counted<E>,
) -> u8
    ensures { EndsAndTells
        (AnswersTape M.remaining P.remaining T.remaining W.contents id map.old map.new plan.old
        plan.new tape.old tape.new out.old out.new)
        E.contents err.old err.new result }
{
    conclude(perform(alloc, map, plan, id, tape, out), err)
}

/// Reads a map from `map` and a plan from `plan`, checks the plan on the map, and then reads the
/// file of a tape from `tape`. It writes to `out` where the agent with this number is by it, and
/// how many whole records it has, as `agent_cmd` would find them. Nothing is locked or written, so
/// it may be asked beside an agent that holds the file.
pub fn perform<M: Read, P: Read, T: Read, W: Write>(
    alloc: Global,
    map: &mut Counted<M>,
    plan: &mut Counted<P>,
    id: u16,
    tape: &mut Counted<T>,
    out: &mut Counted<W>,
) -> Ending
    ensures { AnswersTape M.remaining P.remaining T.remaining W.contents id map.old map.new plan.old
        plan.new tape.old tape.new out.old out.new (end_of result) }
{
    let answer = inspect(alloc, map, plan, id, tape);
    show(answer, out)
}

/// How it ends where there is no file of the tape: nothing is read, and only that is said.
pub fn without_tape() -> Ending
    ensures { EndsWithoutTape (end_of result) }
{
    Ending::gave_up(AgentFault::NoTape.words())
}

/// Reads the map, the plan and the tape.
fn inspect<M: Read, P: Read, T: Read>(
    alloc: Global,
    map: &mut Counted<M>,
    plan: &mut Counted<P>,
    id: u16,
    tape: &mut Counted<T>,
) -> Result<TapeReport, AgentFault>
    ensures { Inspects M.remaining P.remaining T.remaining id map.old map.new plan.old plan.new
        tape.old tape.new (outcome_of result) }
{
    let Some(own) = read_part(alloc, map, plan, id)? else {
        return Err(AgentFault::Tape(OpenFault::NoSuchAgent));
    };
    read_report(alloc, own.part(), tape)
}

/// Writes what the tape keeps.
fn show<W: Write>(answer: Result<TapeReport, AgentFault>, out: &mut Counted<W>) -> Ending
    ensures { EndsByTape W.contents out.old out.new (end_of result) (outcome_of answer) }
{
    match answer {
        Ok(kept) => {
            let written = write_report(kept, out);
            finish(written, Ending::answered_with(Status::Done), out)
        }
        Err(fault) => Ending::gave_up(fault.words()),
    }
}
