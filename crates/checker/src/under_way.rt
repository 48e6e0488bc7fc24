//! The agents of a plan that are under way.
ghost use Rattle.std.specs.Prelude.{◌≡◌, ◌<◌, ◌≤◌, ℕ, length, IfOk};
ghost use Rattle.model.specs.Plan.{IsPassable};
ghost use Rattle.plan_text.specs.Limits.{most_agents};
ghost use Rattle.checker.specs.Code.Walking.{ArePassable};
ghost use Rattle.checker.specs.Code.Squares.{place_on, IsOpen, HasGround};
ghost use Rattle.checker.specs.Code.UnderWay.{AreWalkers, AreAllAgents};

use crate::board::{ground_at, place_on};
use crate::crowd::Walker;
use grid::{Cell, Map};
use plan_text::Course;
use std::alloc::{AllocError, Global};

/// All agents, at their starts.
pub(crate) fn walkers(
    alloc: Global,
    map: &Map,
    courses: &[Course],
) -> Result<Vec<Walker>, AllocError>
    requires starts { ArePassable map.now courses.now }
    requires count { length courses.now ≤ most_agents }
    ensures walkers { IfOk result (λ walkers. AreWalkers map.now courses.now 0 walkers.items) }
    ensures agents { IfOk result (λ walkers. AreAllAgents (length courses.now) walkers.items) }
{
    let mut walkers = Vec::with_capacity(alloc, courses.len())?;
    for agent in 0..courses.len() {
        walkers.push(walker(map, agent as u16, courses[agent].start()))?;
    }
    Ok(walkers)
}

/// An agent at its start.
fn walker(map: &Map, agent: u16, start: Cell) -> Walker
    requires { IsPassable map.now start }
    ensures agent { result.agent ≡ agent }
    ensures place { result.place ≡ place_on map.now start }
    ensures ground { HasGround map.now start result.ground }
    ensures may_go { IsOpen result.ground }
{
    Walker {
        place: place_on(map, start),
        ground: ground_at(map, start),
        agent,
    }
}
