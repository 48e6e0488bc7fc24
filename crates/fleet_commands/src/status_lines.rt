//! Which lines `mapf status` has.
ghost use Rattle.std.specs.Prelude.{◌≡◌, ◌<◌, ◌≤◌, ◌++◌, length, map, slice_get, IfOk};
ghost use Rattle.std.specs.List.{range_with_len};
ghost use Rattle.depgraph.specs.Rotations.{turns_of};
ghost use Rattle.fleet_commands.specs.FoundTapes.{AreWithinMoves};
ghost use Rattle.fleet_commands.specs.Standing.{keepers_of, waits_of};
ghost use Rattle.fleet_commands.specs.Turns.{in_turn};
ghost use Rattle.fleet_commands.specs.StatusText.{agent_line, circle_line, root_line, status_lines};

use crate::keeping::{has_come, keepers_of, kept_count, kept_now, stuck_count, waits_of};
use crate::status_line::{AgentLine, StatusLine};
use agent::Records;
use agent_commands::AgentFault;
use depgraph::{Dependencies, Rotation};
use std::alloc::{AllocError, Global};

/// What was found of the tapes, line by line.
pub(crate) fn status_lines(
    alloc: Global,
    dependencies: &Dependencies,
    rotations: &[Rotation],
    found: &[Result<u32, AgentFault>],
) -> Result<Vec<StatusLine>, AllocError>
    requires all { length found.now ≡ length dependencies.now.tracks }
    requires within { AreWithinMoves dependencies.now found.now }
    ensures { IfOk result
        (λ lines. lines.items ≡ status_lines dependencies.now (turns_of rotations.now) found.now) }
{
    let waits = waits_of(alloc, dependencies, found)?;
    let ends = keepers_of(alloc, &waits)?;
    let mut lines = Vec::new(alloc);
    for agent in 0..dependencies.agents() {
        lines.push(agent_line(dependencies, found, agent))?;
    }
    push_roots(&mut lines, &ends, &waits)?;
    push_circles(&mut lines, dependencies, found, &ends, rotations)?;
    Ok(lines)
}

/// The line of an agent.
fn agent_line(
    dependencies: &Dependencies,
    found: &[Result<u32, AgentFault>],
    agent: u32,
) -> StatusLine
    requires there { agent < length dependencies.now.tracks }
    requires all { length found.now ≡ length dependencies.now.tracks }
    requires within { AreWithinMoves dependencies.now found.now }
    ensures { result ≡ agent_line dependencies.now found.now agent }
{
    // There are few enough for their numbers.
    let _agents = dependencies.agents();
    let number = agent as u16;
    match found[agent as usize] {
        Ok(count) => {
            let records = Records { count };
            let part = dependencies.part(number).unwrap();
            StatusLine::Agent(AgentLine {
                agent: number,
                held: records.held(&part),
                done: records.done(),
                all: part.own_moves(),
                keeping: kept_now(dependencies, found, agent),
            })
        }
        Err(fault) => StatusLine::Fault {
            agent: number,
            fault,
        },
    }
}

/// Adds a line for each agent that waits for nobody, and keeps others.
fn push_roots(
    lines: &mut Vec<StatusLine>,
    ends: &[u16],
    waits: &[Option<u16>],
) -> Result<(), AllocError>
    requires waits { length waits.now ≤ 65535 }
    requires ends { length ends.now ≤ 65535 }
    ensures { IfOk result
        (λ _. lines.new.items ≡ lines.old.items ++ in_turn (root_line ends.now waits.now)
        (length waits.now)) }
{
    for agent in 0..waits.len() {
        if waits[agent].is_none() {
            let keeps = kept_count(ends, agent as u16);
            if keeps > 0 {
                lines.push(StatusLine::Root {
                    agent: agent as u16,
                    keeps,
                })?;
            }
        }
    }
    Ok(())
}

/// Adds a line for each rotation to which all of its agents have come.
fn push_circles(
    lines: &mut Vec<StatusLine>,
    dependencies: &Dependencies,
    found: &[Result<u32, AgentFault>],
    ends: &[u16],
    rotations: &[Rotation],
) -> Result<(), AllocError>
    requires { length ends.now ≤ 65535 }
    ensures { IfOk result
        (λ _. lines.new.items ≡ lines.old.items
        ++ in_turn (circle_line dependencies.now found.now ends.now (turns_of rotations.now))
        (length rotations.now)) }
{
    for number in 0..rotations.len() {
        let rotation = &rotations[number];
        if has_come(dependencies, found, rotation) {
            lines.push(StatusLine::Circle {
                number: number as u64,
                keeps: stuck_count(ends, rotation),
            })?;
        }
    }
    Ok(())
}
