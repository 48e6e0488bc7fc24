//! At which time a plan may be cut, so that what is left has every move that was begun.
ghost use Rattle.std.specs.Prelude.{◌≡◌, ◌<◌, ◌≤◌, length, max, Some};
ghost use Rattle.model.specs.Timetable.{Track, moves, track_of};
ghost use Rattle.fleet_commands.specs.FoundTapes.{AreWithinMoves, begun_by};
ghost use Rattle.fleet_commands.specs.CutTimes.{IsCutTime};
ghost use Rattle.fleet_commands.specs.Code.Ends.{IsEndOf};

use crate::found_tapes::begun_by;
use agent_commands::AgentFault;
use depgraph::{Dependencies, Route};

/// The least time at which all moves that were begun have ended.
pub(crate) fn cut_time(dependencies: &Dependencies, found: &[Result<u32, AgentFault>]) -> u32
    requires { AreWithinMoves dependencies.now found.now }
    ensures { IsCutTime dependencies.now found.now result }
{
    let mut time = 0;
    for agent in 0..dependencies.agents() {
        let end = end_of_begun(dependencies, agent, begun_by(found, agent as u16));
        time = later_of(time, end);
    }
    time
}

fn later_of(one: u32, other: u32) -> u32
    ensures { result ≡ max one other }
{
    one.max(other)
}

/// The time at which so many moves of an agent have ended.
fn end_of_begun(dependencies: &Dependencies, agent: u32, begun: u32) -> u32
    requires there { agent < length dependencies.now.tracks }
    requires within { (track : Track) → track_of dependencies.now agent ≡ Some track
        → begun ≤ moves track }
    ensures { (track : Track) → track_of dependencies.now agent ≡ Some track
        → IsEndOf track begun result }
{
    if begun == 0 {
        return 0;
    }
    // No step is later than an agent has acts.
    let _agents = dependencies.agents();
    let route = dependencies.route(agent).unwrap();
    route.step(begun - 1).unwrap() + 1
}
