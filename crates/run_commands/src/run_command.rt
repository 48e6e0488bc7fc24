//! `mapf run`: answers the events of a run, one after another, and says how it ends.
ghost use Rattle.std.specs.Prelude.{◌≡◌};
ghost use Rattle.ending.specs.Ending.{EndsAndTells, end_of};
ghost use Rattle.run_commands.specs.RunCommand.{RunsOrCompletes, needs_flush};
ghost use Rattle.run_commands.specs.RunCommand.{end_of_run, AnswersRun};

use ending::{Ending, Status, conclude, finish};
use runner::{Completion, RunFault, complete_text, run_text};
use std::alloc::Global;
use std::io::{Read, Write};
use text_io::Counted;

/// As `perform`, with a fault's line on `err`, after all that was written before it. The answer is
/// the exit status, which stays where `err` fails.
pub fn run_cmd<M: Read, P: Read, V: Read, W: Write, E: Write>(
    alloc: Global,
    map: &mut Counted<M>,
    plan: &mut Counted<P>,
    events: &mut Counted<V>,
    complete: bool,
    out: &mut Counted<W>,
    err: &mut Counted<E>,
) -> u8
    ensures { EndsAndTells
        (AnswersRun M.remaining P.remaining V.remaining W.contents map.old map.new plan.old plan.new
        events.old events.new complete out.old out.new)
        E.contents err.old err.new result }
{
    conclude(perform(alloc, map, plan, events, complete, out), err)
}

/// Reads a map from `map` and a plan from `plan`, checks the plan on the map, and answers one event
/// of `events` after another on `out`; where `complete` is set it then says there how the run ends.
/// `out` is left alone where the map or the plan has a fault.
pub fn perform<M: Read, P: Read, V: Read, W: Write>(
    alloc: Global,
    map: &mut Counted<M>,
    plan: &mut Counted<P>,
    events: &mut Counted<V>,
    complete: bool,
    out: &mut Counted<W>,
) -> Ending
    ensures { AnswersRun M.remaining P.remaining V.remaining W.contents map.old map.new plan.old
        plan.new events.old events.new complete out.old out.new (end_of result) }
{
    let answer = answer_run(alloc, map, plan, events, complete, out);
    if needs_flush(&answer) {
        finish(Ok(()), ending_of(answer), out)
    } else {
        ending_of(answer)
    }
}

/// Answers the events, and says how their run ends where that is asked for.
fn answer_run<M: Read, P: Read, V: Read, W: Write>(
    alloc: Global,
    map: &mut Counted<M>,
    plan: &mut Counted<P>,
    events: &mut Counted<V>,
    complete: bool,
    out: &mut Counted<W>,
) -> Result<Completion, RunFault>
    ensures { RunsOrCompletes M.remaining P.remaining V.remaining W.contents map.old map.new
        plan.old plan.new events.old events.new complete out.old out.new result }
{
    if complete {
        return complete_text(alloc, map, plan, events, out);
    }
    run_text(alloc, map, plan, events, out)?;
    Ok(Completion::Ends)
}

/// Whether the map and the plan were good, so that events were answered, and no write failed.
fn needs_flush(answer: &Result<Completion, RunFault>) -> bool
    ensures { result ≡ needs_flush answer.now }
{
    !matches!(answer, Err(RunFault::Planned(_) | RunFault::WriteFailed))
}

/// How a run ends that came to this: that a rotation blocks it is told by the status alone.
fn ending_of(answer: Result<Completion, RunFault>) -> Ending
    ensures { end_of result ≡ end_of_run answer }
{
    match answer {
        Ok(Completion::Ends) => Ending::answered_with(Status::Done),
        Ok(Completion::Blocked(_)) => Ending::answered_with(Status::Fault),
        Err(fault) => Ending::gave_up(fault.words()),
    }
}
