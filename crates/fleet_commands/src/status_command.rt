//! `mapf status`: says what the tapes of a fleet have, and who keeps whom.
ghost use Rattle.std.specs.Prelude.{◌≡◌, is_ok, IfOk, MatchResult};
ghost use Rattle.std.specs.List.{list_any};
ghost use Rattle.model.specs.Timetable.{Timetable};
ghost use Rattle.ending.specs.Ending.{EndsAndTells, end_of};
ghost use Rattle.fleet_commands.specs.StatusCommand.{AnswersStatus, AreAllLines, EndsByTapes};
ghost use Rattle.fleet_commands.specs.StatusCommand.{is_fault, status_by};

use crate::found_tapes::read_tapes;
use crate::one_run::push_run_lines;
use crate::plans_beside::push_plan_lines;
use crate::status_line::{StatusLine, write_lines};
use crate::status_lines::status_lines;
use agent_commands::ReadFiles;
use depgraph::Dependencies;
use ending::{Ending, Status, conclude, finish};
use planned::read_dependencies;
use std::alloc::AllocError;
use std::io::{Read, Write};
use text_io::{Counted, Failure};

/// As `perform`, with a fault's line on `err`. The answer is the exit status, which stays where
/// `err` fails.
pub fn status_cmd<R: ReadFiles + AllocGlobal, M: Read, P: Read, W: Write, E: Write>(
    rt: &R,
    map: &mut Counted<M>,
    plan: &mut Counted<P>,
    tapes: &str,
    json: bool,
    out: &mut Counted<W>,
    err: &mut Counted<E>,
) -> u8
    ensures { EndsAndTells
        (AnswersStatus M.remaining P.remaining R.was_done W.contents json map.old map.new
        plan.old plan.new out.old out.new)
        E.contents err.old err.new result }
{
    conclude(perform(rt, map, plan, tapes, json, out), err)
}

/// Reads a map from `map` and a plan from `plan`, checks the plan on the map, and then reads the
/// tape of each agent, in the file that has the name `tapes` with the agent's number in place of
/// each `%`. It writes to `out` where each agent is by its tape and what keeps it, then who keeps
/// others, then what shows that the tapes are not those of one run, and then which plans beside
/// them part. Nothing is locked or written else, so it may be asked beside the agents.
pub fn perform<R: ReadFiles + AllocGlobal, M: Read, P: Read, W: Write>(
    rt: &R,
    map: &mut Counted<M>,
    plan: &mut Counted<P>,
    tapes: &str,
    json: bool,
    out: &mut Counted<W>,
) -> Ending
    ensures { AnswersStatus M.remaining P.remaining R.was_done W.contents json map.old map.new
        plan.old plan.new out.old out.new (end_of result) }
{
    match read_dependencies(rt.alloc(), map, plan) {
        Ok(dependencies) => tell(rt, &dependencies, tapes, json, out),
        Err(fault) => Ending::gave_up(fault.words()),
    }
}

/// Tells what the tapes of a plan's agents have.
fn tell<R: ReadFiles + AllocGlobal, W: Write>(
    rt: &R,
    dependencies: &Dependencies,
    tapes: &str,
    json: bool,
    out: &mut Counted<W>,
) -> Ending
    ensures { EndsByTapes R.was_done W.contents json dependencies.now out.old out.new
        (end_of result) }
{
    let Ok(lines) = all_lines(rt, dependencies, tapes) else {
        return Ending::gave_up(Failure::OutOfMemory.words());
    };
    let written = write_lines(&lines, json, out);
    finish(written, Ending::answered_with(status_by(&lines)), out)
}

/// Reads the tapes and the plans beside them: the lines of what they have.
fn all_lines<R: ReadFiles + AllocGlobal>(
    rt: &R,
    dependencies: &Dependencies,
    tapes: &str,
) -> Result<Vec<StatusLine>, AllocError>
    ensures { IfOk result (λ lines. AreAllLines R.was_done dependencies.now lines.items) }
{
    let found = read_tapes(rt, dependencies, tapes)?;
    let rotations = dependencies.rotations();
    let mut lines = status_lines(rt.alloc(), dependencies, rotations, &found)?;
    push_run_lines(&mut lines, dependencies, rotations, &found, None)?;
    push_plan_lines(rt, &mut lines, dependencies.agents(), tapes)?;
    Ok(lines)
}

/// The answer is no where a line tells a fault.
fn status_by(lines: &[StatusLine]) -> Status
    ensures { result ≡ status_by lines.now }
{
    if has_fault(lines) {
        Status::Fault
    } else {
        Status::Done
    }
}

fn has_fault(lines: &[StatusLine]) -> bool
    ensures { result ≡ list_any is_fault lines.now }
{
    lines.iter().any(|line| is_fault(line))
}

/// Whether a line tells what has to be mended before anybody drives on.
fn is_fault(line: &StatusLine) -> bool
    ensures { result ≡ is_fault line.now }
{
    match line {
        StatusLine::Agent(_) | StatusLine::Root { .. } | StatusLine::Circle { .. } => false,
        StatusLine::Fault { .. }
        | StatusLine::Unmet { .. }
        | StatusLine::Begun { .. }
        | StatusLine::Parted { .. }
        | StatusLine::BesideFault { .. } => true,
    }
}
