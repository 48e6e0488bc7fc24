//! What is wrong with one agent of a plan by itself: its start, or a move.
ghost use Rattle.std.specs.Prelude.{◌≡◌, ◌≤◌, length, MatchOption};
ghost use Rattle.grid.specs.Map.{IsSize};
ghost use Rattle.model.specs.Plan.{IsPassable, IsBadMove};
ghost use Rattle.plan_text.specs.Limits.{most_acts, most_agents};
ghost use Rattle.checker.specs.Moving.{ArePassable, IsFirst};
ghost use Rattle.plan_commands.specs.Walkable.{IsLeastOfOneAgent};
ghost use Rattle.plan_commands.specs.Code.Straying.{AllHaveFewActs, GoesItsWay, GoTheirWays};
ghost use Rattle.plan_commands.specs.Code.Straying.{IsLeastMove, sooner_of};

use checker::{bad_start, may_stray, moved};
use grid::Map;
use model::PlanFault;
use plan_text::{Course, Plan};
use std::alloc::Global;

/// A move that is none: whose it is, and its step.
#[derive(Clone, Copy)]
pub(crate) struct BadMove {
    pub(crate) agent: u32,
    pub(crate) step: u32,
}

/// The least fault that an agent has by itself, by its time and then by agent.
pub(crate) fn fault_of_one_agent(alloc: Global, map: &Map, plan: &Plan) -> Option<PlanFault>
    ensures { MatchOption result (GoTheirWays map.now plan.now)
        (IsLeastOfOneAgent map.now plan.now) }
{
    // A map is narrow enough for one cell more.
    let _width = map.width();
    let courses = plan.courses();
    if let Some(agent) = bad_start(map, courses) {
        return Some(PlanFault::BadStart(agent));
    }
    match find_bad_move(alloc, map, courses) {
        Some(first) => Some(PlanFault::BadMove(first.agent, first.step)),
        None => None,
    }
}

/// The bad move with the least step, and then of the least agent. It is looked for only where there
/// may be one, or where memory was refused to what tells that faster.
fn find_bad_move(alloc: Global, map: &Map, courses: &[Course]) -> Option<BadMove>
    requires size { IsSize map.now.width map.now.height }
    requires starts { ArePassable map.now courses.now }
    requires agents { length courses.now ≤ most_agents }
    requires acts { AllHaveFewActs courses.now }
    ensures { IsLeastMove map.now courses.now (length courses.now) result }
{
    match may_stray(alloc, map, courses) {
        Ok(false) => None,
        _ => bad_move(map, courses),
    }
}

/// The bad move with the least step, and then of the least agent, by each act of each agent.
fn bad_move(map: &Map, courses: &[Course]) -> Option<BadMove>
    requires size { IsSize map.now.width map.now.height }
    requires starts { ArePassable map.now courses.now }
    requires agents { length courses.now ≤ most_agents }
    requires acts { AllHaveFewActs courses.now }
    ensures { IsLeastMove map.now courses.now (length courses.now) result }
{
    let mut first = None;
    for agent in 0..courses.len() {
        first = sooner(first, agent as u32, bad_step(map, &courses[agent]));
    }
    first
}

/// The sooner one of a move and of one of a later agent, if there are such.
fn sooner(first: Option<BadMove>, agent: u32, step: Option<u32>) -> Option<BadMove>
    ensures { result ≡ sooner_of first agent step }
{
    match (first, step) {
        (Some(bad), Some(step)) if step < bad.step => Some(BadMove { agent, step }),
        (None, Some(step)) => Some(BadMove { agent, step }),
        _ => first,
    }
}

/// The first step in which the agent has a bad move.
fn bad_step(map: &Map, course: &Course) -> Option<u32>
    requires size { IsSize map.now.width map.now.height }
    requires start { IsPassable map.now course.now.start }
    requires acts { length course.now.acts ≤ most_acts }
    ensures { MatchOption result (GoesItsWay map.now course.now)
        (IsFirst (IsBadMove map.now course.now)) }
{
    let acts = course.acts();
    let mut cell = course.start();
    for step in 0..acts.len() {
        match moved(map, cell, acts[step]) {
            Some(to) => cell = to,
            None => return Some(step as u32),
        }
    }
    None
}
