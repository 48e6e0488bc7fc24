//! What shows that tapes are not those of one run.
ghost use Rattle.std.specs.Prelude.{◌≡◌, ◌<◌, ◌≤◌, ◌++◌, length, IfOk};
ghost use Rattle.model.specs.Timetable.{Timetable, track_of};
ghost use Rattle.model.specs.Dependency.{need};
ghost use Rattle.depgraph.specs.AgentParts.{IsPartOf};
ghost use Rattle.depgraph.specs.Rotations.{turn_of, turns_of};
ghost use Rattle.fleet_commands.specs.FoundTapes.{AreWithinMoves, begun_by, finished_by};
ghost use Rattle.fleet_commands.specs.Standing.{kept_by_need};
ghost use Rattle.fleet_commands.specs.OneRun.{counts, first_unmet, has_begun_in, has_reached};
ghost use Rattle.fleet_commands.specs.OneRun.{is_turn_begun, unmet_by, unmet_in};
ghost use Rattle.fleet_commands.specs.StatusText.{begun_line, run_lines, unmet_line};
ghost use Rattle.fleet_commands.specs.Turns.{in_turn};

use crate::found_tapes::{begun_by, is_known};
use crate::keeping::{Keeping, kept_by_need};
use crate::known_tapes::is_left_out;
use crate::status_line::StatusLine;
use agent_commands::AgentFault;
use depgraph::{Dependencies, Part, Rotation};
use std::alloc::AllocError;

/// An agent, and how many moves it should have finished before a move that was begun.
#[derive(Clone, Copy)]
pub(crate) struct Unmet {
    pub(crate) agent: u16,
    pub(crate) count: u32,
}

/// Adds what shows that the tapes are not those of one run, but for an agent that is left out: a
/// line for each agent that has begun a move too early, and one for each rotation that was begun.
pub(crate) fn push_run_lines(
    lines: &mut Vec<StatusLine>,
    dependencies: &Dependencies,
    rotations: &[Rotation],
    found: &[Result<u32, AgentFault>],
    without: Option<u16>,
) -> Result<(), AllocError>
    requires { AreWithinMoves dependencies.now found.now }
    ensures { IfOk result
        (λ _. lines.new.items ≡ lines.old.items ++ run_lines dependencies.now without
        (turns_of rotations.now) found.now) }
{
    push_unmet(lines, dependencies, found, without)?;
    push_begun(lines, dependencies, rotations, found, without)
}

/// Adds a line for each agent that has begun a move too early.
fn push_unmet(
    lines: &mut Vec<StatusLine>,
    dependencies: &Dependencies,
    found: &[Result<u32, AgentFault>],
    without: Option<u16>,
) -> Result<(), AllocError>
    requires { AreWithinMoves dependencies.now found.now }
    ensures { IfOk result
        (λ _. lines.new.items ≡ lines.old.items
        ++ in_turn (unmet_line dependencies.now without found.now)
        (length dependencies.now.tracks)) }
{
    for agent in 0..dependencies.agents() {
        if let Some(unmet) = unmet_in(dependencies, found, without, agent) {
            lines.push(StatusLine::Unmet {
                agent: agent as u16,
                unmet,
            })?;
        }
    }
    Ok(())
}

/// Adds a line for each rotation in which an agent has begun its move.
fn push_begun(
    lines: &mut Vec<StatusLine>,
    dependencies: &Dependencies,
    rotations: &[Rotation],
    found: &[Result<u32, AgentFault>],
    without: Option<u16>,
) -> Result<(), AllocError>
    ensures { IfOk result
        (λ _. lines.new.items ≡ lines.old.items
        ++ in_turn (begun_line dependencies.now without found.now (turns_of rotations.now))
        (length rotations.now)) }
{
    for number in 0..rotations.len() {
        if is_turn_begun(dependencies, found, without, &rotations[number]) {
            lines.push(StatusLine::Begun {
                number: number as u64,
            })?;
        }
    }
    Ok(())
}

/// What the first of the moves waits for that an agent has begun too early.
fn unmet_in(
    dependencies: &Dependencies,
    found: &[Result<u32, AgentFault>],
    without: Option<u16>,
    agent: u32,
) -> Option<Unmet>
    requires there { agent < length dependencies.now.tracks }
    requires within { AreWithinMoves dependencies.now found.now }
    ensures { result ≡ unmet_in dependencies.now without found.now agent
        (track_of dependencies.now agent) }
{
    // There are few enough for their numbers.
    let _agents = dependencies.agents();
    let number = agent as u16;
    if !counts(found, without, number) {
        return None;
    }
    let part = dependencies.part(number).unwrap();
    first_unmet(&part, found, without, begun_by(found, number))
}

/// What the first of so many moves waits for that is not finished.
fn first_unmet(
    part: &Part<'_>,
    found: &[Result<u32, AgentFault>],
    without: Option<u16>,
    begun: u32,
) -> Option<Unmet>
    requires { begun ≤ length part.now.needs }
    ensures { (tt : Timetable) (is : IsPartOf tt part.now)
        → result ≡ first_unmet
        (λ k. unmet_by without found.now
        (kept_by_need (finished_by found.now) (need tt part.now.agent is.track k))) begun }
{
    for number in 0..begun {
        let unmet = unmet_by(found, without, kept_by_need(part, found, number));
        if unmet.is_some() {
            return unmet;
        }
    }
    None
}

/// What keeps a move from its beginning, where the tape counts that says so.
pub(crate) fn unmet_by(
    found: &[Result<u32, AgentFault>],
    without: Option<u16>,
    keeping: Keeping,
) -> Option<Unmet>
    ensures { result ≡ unmet_by without found.now keeping }
{
    match keeping {
        Keeping::Other { agent, count } if counts(found, without, agent) => {
            Some(Unmet { agent, count })
        }
        _ => None,
    }
}

/// Whether an agent is opened on its tape, and is not left out.
fn counts(found: &[Result<u32, AgentFault>], without: Option<u16>, agent: u16) -> bool
    ensures { result ≡ counts without found.now agent }
{
    !is_left_out(without, agent) && is_known(found, agent)
}

/// Whether an agent of a rotation has begun its move in it.
fn is_turn_begun(
    dependencies: &Dependencies,
    found: &[Result<u32, AgentFault>],
    without: Option<u16>,
    rotation: &Rotation,
) -> bool
    ensures { result ≡ is_turn_begun dependencies.now without found.now (turn_of rotation.now) }
{
    rotation.agents.iter().any(|agent| has_begun_in(
        dependencies,
        found,
        without,
        rotation.step,
        *agent,
    ))
}

/// Whether an agent has begun its move in a step, by a tape that counts.
fn has_begun_in(
    dependencies: &Dependencies,
    found: &[Result<u32, AgentFault>],
    without: Option<u16>,
    step: u32,
    agent: u16,
) -> bool
    ensures { result ≡ has_begun_in dependencies.now without found.now step agent }
{
    counts(found, without, agent) && has_reached(dependencies, step, agent, begun_by(found, agent))
}

/// Whether the last of so many moves of an agent is planned in a step, or later.
fn has_reached(dependencies: &Dependencies, step: u32, agent: u16, begun: u32) -> bool
    ensures { result ≡ has_reached step (track_of dependencies.now agent) begun }
{
    if begun == 0 {
        return false;
    }
    match dependencies.route(u32::from(agent)) {
        Some(route) => match route.step(begun - 1) {
            Some(last) => last >= step,
            None => false,
        },
        None => false,
    }
}
