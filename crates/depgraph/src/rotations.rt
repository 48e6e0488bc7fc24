//! The rotations of a timetable: cycles of moves of one step, each of which waits for the next.
ghost use Rattle.std.specs.Prelude.{◌≡◌, ◌<◌, All, length, IfOk};
ghost use Rattle.depgraph.specs.Rotations.{AreRotations, turns_of};
ghost use Rattle.depgraph.specs.Code.Links.{all_links, links_in, AreLinksIn};
ghost use Rattle.depgraph.specs.Code.Paths.{all_times};
ghost use Rattle.depgraph.specs.Code.Turning.{AreLaid, AreAllRotations, agents_of, key_by};

use crate::cycles::{Links, walk};
use crate::waiting::Wait;
use checker::CheckedPlan;
use model::Rotation;
use std::alloc::{AllocError, Global};

/// All rotations of a plan's timetable, by step and then by least agent. `waits` has for each entry
/// what the move into its cell waits for.
pub(crate) fn find_rotations(
    alloc: Global,
    plan: &CheckedPlan,
    times: &[u16],
    ends: &[usize],
    waits: &[Wait],
) -> Result<Vec<Rotation>, AllocError>
    requires times { times.now ≡ all_times plan.now.timetable.tracks }
    requires laid { AreLaid plan.now.timetable ends.now waits.now
        (all_links times.now ends.now waits.now) }
    ensures { IfOk result (λ v. AreRotations plan.now.timetable (turns_of v.items)) }
{
    let mut links = Links::new(alloc, times, ends, waits)?;
    let mut rotations = rotations_by_agent(alloc, plan, &mut links)?;
    rotations.sort_unstable_by_key(key_of);
    Ok(rotations)
}

/// The same by least agent, and then by step: the entries of a cycle have one time, so the least of
/// them is that of its least agent, and each cycle is found from there. The links are taken away.
fn rotations_by_agent(
    alloc: Global,
    plan: &CheckedPlan,
    links: &mut Links<'_>,
) -> Result<Vec<Rotation>, AllocError>
    requires times { links.old.times.now ≡ all_times plan.now.timetable.tracks }
    requires whole { AreLinksIn links.old }
    requires laid { AreLaid plan.now.timetable links.old.ends.now links.old.waits.now
        (links_in links.old) }
    ensures { IfOk result (λ v. AreAllRotations plan.now.timetable (turns_of v.items)) }
{
    let times = links.times;
    let ends = links.ends;
    let waits = links.waits;
    let mut trail = Vec::new(alloc);
    let mut rotations = Vec::new(alloc);
    let mut entry = 0;
    for agent in 0..ends.len() {
        while entry < ends[agent] {
            if walk(entry as u32, links, &mut trail)? {
                let agents = agents_on(alloc, agent as u16, &trail, waits)?;
                // An entry has the time after the step of its move.
                let step = u32::from(times[entry]) - 1;
                rotations.push(Rotation { step, agents })?;
            }
            trail.clear();
            entry += 1;
        }
    }
    Ok(rotations)
}

/// The agents of a cycle of entries, the first of which is known: each waits for the next.
fn agents_on(
    alloc: Global,
    first: u16,
    trail: &[u32],
    waits: &[Wait],
) -> Result<Vec<u16>, AllocError>
    requires { All (λ e. e < length waits.now) trail.now }
    ensures { IfOk result (λ v. v.items ≡ agents_of waits.now first trail.now) }
{
    let mut agents = Vec::with_capacity(alloc, trail.len())?;
    let mut agent = first;
    for entry in trail {
        agents.push(agent)?;
        agent = waits[*entry as usize].agent;
    }
    Ok(agents)
}

/// A rotation's step and least agent, in one number.
fn key_of(rotation: &Rotation) -> u64
    ensures { result ≡ key_by rotation.now.step rotation.now.agents.items }
{
    let first = rotation.agents.first().copied().unwrap_or(0);
    (u64::from(rotation.step) << 16) | u64::from(first)
}
