//! What keeps each agent by what all tapes have, and who keeps whom.
ghost use Rattle.std.specs.Prelude.{◌≡◌, ◌<◌, ◌≤◌, ℕ, None, length};
ghost use Rattle.std.specs.Prelude.{map, slice_index_or, count_by, IfOk, IsTrue, All};
ghost use Rattle.model.specs.Timetable.{Timetable, moves, track_of};
ghost use Rattle.model.specs.Dependency.{need};
ghost use Rattle.depgraph.specs.AgentParts.{IsPartOf};
ghost use Rattle.depgraph.specs.Rotations.{turn_of};
ghost use Rattle.fleet_commands.specs.FoundTapes.{finished_by};
ghost use Rattle.fleet_commands.specs.Standing.{keepers_of, has_come, is_at_step, is_planned_in};
ghost use Rattle.fleet_commands.specs.Standing.{kept_at, kept_by_need, kept_count, kept_now};
ghost use Rattle.fleet_commands.specs.Standing.{keeper_after, step_from, stuck_count, waited_for};
ghost use Rattle.fleet_commands.specs.Standing.{waits_of};

use crate::found_tapes::{begun_by, finished_by, is_known};
use agent::Records;
use agent_commands::AgentFault;
use depgraph::{Dependencies, Part, Rotation};
use std::alloc::{AllocError, Global};

/// What keeps an agent from its next move.
#[derive(Clone, Copy)]
pub(crate) enum Keeping {
    /// Nobody knows, since no agent is opened on its tape.
    Unknown,
    /// It makes a move.
    OwnMove,
    /// It has made all its moves.
    OwnEnd,
    Nothing,
    /// The other agent hasn't finished so many moves by its tape.
    Other { agent: u16, count: u32 },
}

/// What keeps an agent.
pub(crate) fn kept_now(
    dependencies: &Dependencies,
    found: &[Result<u32, AgentFault>],
    agent: u32,
) -> Keeping
    requires { agent < length dependencies.now.tracks }
    ensures { result ≡ kept_now dependencies.now found.now agent }
{
    let Some(Ok(records)) = found.get(agent as usize) else {
        return Keeping::Unknown;
    };
    // There are few enough for their numbers.
    let _agents = dependencies.agents();
    let part = dependencies.part(agent as u16).unwrap();
    kept_at(&part, found, *records)
}

/// What keeps an agent whose tape has so many records.
fn kept_at(part: &Part<'_>, found: &[Result<u32, AgentFault>], records: u32) -> Keeping
    ensures { (tt : Timetable) (is : IsPartOf tt part.now)
        → result ≡ kept_at tt (finished_by found.now) part.now.agent is.track records }
{
    let records = Records { count: records };
    if records.is_moving() {
        return Keeping::OwnMove;
    }
    let done = records.done();
    if done < part.own_moves() {
        kept_by_need(part, found, done)
    } else {
        Keeping::OwnEnd
    }
}

/// What keeps an agent from the move with this number.
pub(crate) fn kept_by_need(
    part: &Part<'_>,
    found: &[Result<u32, AgentFault>],
    number: u32,
) -> Keeping
    requires { number < length part.now.needs }
    ensures { (tt : Timetable) (is : IsPartOf tt part.now)
        → result ≡ kept_by_need (finished_by found.now) (need tt part.now.agent is.track number) }
{
    match part.need(number) {
        Some((agent, count)) if finished_by(found, agent) < count => {
            Keeping::Other { agent, count }
        }
        _ => Keeping::Nothing,
    }
}

/// For whom each agent waits.
pub(crate) fn waits_of(
    alloc: Global,
    dependencies: &Dependencies,
    found: &[Result<u32, AgentFault>],
) -> Result<Vec<Option<u16>>, AllocError>
    ensures waits { IfOk result (λ waits. waits.items ≡ waits_of dependencies.now found.now) }
    ensures few { IfOk result (λ waits. length waits.items ≤ 65535) }
{
    let mut waits = Vec::new(alloc);
    for agent in 0..dependencies.agents() {
        waits.push(waited_for(kept_now(dependencies, found, agent)))?;
    }
    Ok(waits)
}

fn waited_for(keeping: Keeping) -> Option<u16>
    ensures { result ≡ waited_for keeping }
{
    match keeping {
        Keeping::Other { agent, .. } => Some(agent),
        _ => None,
    }
}

/// To whom as many steps lead from each agent as there are agents, each step to the one for which
/// it waits.
pub(crate) fn keepers_of(alloc: Global, waits: &[Option<u16>]) -> Result<Vec<u16>, AllocError>
    requires { length waits.now ≤ 65535 }
    ensures ends { IfOk result (λ ends. ends.items ≡ keepers_of waits.now) }
    ensures few { IfOk result (λ ends. length ends.items ≤ 65535) }
{
    let mut ends = Vec::new(alloc);
    for agent in 0..waits.len() {
        ends.push(keeper_of(waits, agent as u16))?;
    }
    Ok(ends)
}

fn keeper_of(waits: &[Option<u16>], agent: u16) -> u16
    ensures { result ≡ keeper_after waits.now agent (length waits.now) }
{
    let mut end = agent;
    for _step in 0..waits.len() {
        // Nobody is led further from one who waits for nobody.
        let Some(next) = next_of(waits, end) else {
            return end;
        };
        end = next;
    }
    end
}

/// For whom an agent waits.
fn next_of(waits: &[Option<u16>], agent: u16) -> Option<u16>
    ensures { result ≡ slice_index_or waits.now agent None }
{
    match waits.get(usize::from(agent)) {
        Some(next) => *next,
        None => None,
    }
}

/// How many others wait for an agent that waits for nobody, directly or not.
pub(crate) fn kept_count(ends: &[u16], agent: u16) -> u32
    requires { length ends.now ≤ 65535 }
    ensures { result ≡ kept_count ends.now agent }
{
    let count = ends.iter().filter(|end| **end == agent).count();
    (count as u32).saturating_sub(1)
}

/// Whether the agents of a rotation are known to have all come to it, and to stand before it.
pub(crate) fn has_come(
    dependencies: &Dependencies,
    found: &[Result<u32, AgentFault>],
    rotation: &Rotation,
) -> bool
    ensures { result ≡ has_come dependencies.now found.now (turn_of rotation.now) }
{
    rotation.agents.iter().all(|agent| is_at_step(dependencies, found, *agent, rotation.step))
}

/// Whether an agent is known to stand, and to have its move in a step before it.
fn is_at_step(
    dependencies: &Dependencies,
    found: &[Result<u32, AgentFault>],
    agent: u16,
    step: u32,
) -> bool
    ensures { result ≡ is_at_step dependencies.now found.now step agent }
{
    let finished = finished_by(found, agent);
    is_known(found, agent)
        && begun_by(found, agent) == finished
        && is_planned_in(dependencies, step, agent, finished)
}

/// Whether the move of an agent with this number is planned in a step.
fn is_planned_in(dependencies: &Dependencies, step: u32, agent: u16, number: u32) -> bool
    ensures { result ≡ is_planned_in step (track_of dependencies.now agent) number }
{
    match dependencies.route(u32::from(agent)) {
        Some(route) => route.step(number) == Some(step),
        None => false,
    }
}

/// How many agents wait in a rotation, or for it.
pub(crate) fn stuck_count(ends: &[u16], rotation: &Rotation) -> u32
    requires { length ends.now ≤ 65535 }
    ensures { result ≡ stuck_count ends.now (turn_of rotation.now) }
{
    let count = ends
        .iter()
        .filter(|end| rotation.agents.contains(*end))
        .count();
    count as u32
}
