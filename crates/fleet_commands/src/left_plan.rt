//! What is left of a plan where all moves that were begun are made.
ghost use Rattle.std.specs.Prelude.{◌≡◌, ◌<◌, ◌≤◌, ◌++◌, drop, length, IfErr, IfOk, Some};
ghost use Rattle.model.specs.Plan.{course_of};
ghost use Rattle.model.specs.Timetable.{Track, Timetable, moves, track_of};
ghost use Rattle.depgraph.specs.AgentParts.{IsPartOf};
ghost use Rattle.fleet_commands.specs.FoundTapes.{AreWithinMoves};
ghost use Rattle.fleet_commands.specs.declared.handover_fault.HandoverFault.TheVariants as handover_fault;
ghost use Rattle.fleet_commands.specs.LeftPlan.{first_step, left_act, left_acts};
ghost use Rattle.fleet_commands.specs.LeftPlan.{left_course, left_courses_by, left_plan};
ghost use Rattle.fleet_commands.specs.LeftPlan.{made_behind, next_step, sooner_step};

use crate::found_tapes::begun_by;
use crate::handover_fault::HandoverFault;
use crate::known_tapes::is_left_out;
use agent_commands::AgentFault;
use depgraph::{Dependencies, Part};
use model::Act;
use plan_text::Plan;
use planned::PlanAtHand;
use std::alloc::{AllocError, Global};

/// How much of its course an agent has behind it.
#[derive(Clone, Copy)]
struct Ahead {
    /// So many moves are begun.
    begun: u32,
    /// The new plan begins in this step.
    first: u32,
}

/// The plan of what is left, under a number of its own, but for an agent that is left out.
pub(crate) fn left_plan(
    alloc: Global,
    at_hand: &PlanAtHand,
    found: &[Result<u32, AgentFault>],
    without: Option<u16>,
    number: u32,
) -> Result<Plan, HandoverFault>
    requires { AreWithinMoves at_hand.now.dependencies found.now }
    ensures left { IfOk result
        (λ left. left ≡ left_plan at_hand.now.plan at_hand.now.dependencies found.now
        without number) }
    ensures fault { IfErr result (λ fault. fault ≡ handover_fault.OutOfMemory) }
{
    let first = first_step(&at_hand.dependencies, found, without);
    let mut left = Plan::new(alloc, number);
    for agent in 0..at_hand.dependencies.agents() {
        let number = agent as u16;
        if !is_left_out(without, number) {
            let begun = begun_by(found, number);
            push_left(alloc, &mut left, at_hand, number, Ahead { begun, first })?;
        }
    }
    Ok(left)
}

/// Adds what is left of an agent's course, if there is such an agent.
fn push_left(
    alloc: Global,
    left: &mut Plan,
    at_hand: &PlanAtHand,
    agent: u16,
    ahead: Ahead,
) -> Result<(), HandoverFault>
    requires there { agent < length at_hand.now.dependencies.tracks }
    requires within { (track : Track) → track_of at_hand.now.dependencies agent ≡ Some track
        → ahead.begun ≤ moves track }
    ensures fault { IfErr result (λ fault. fault ≡ handover_fault.OutOfMemory) }
    ensures left { IfOk result (λ _. left.new ≡ record left.old {
      courses = left.old.courses
          ++ left_courses_by ahead.begun ahead.first (track_of at_hand.now.dependencies agent)
          (course_of at_hand.now.plan agent);
    }) }
{
    let Some(course) = at_hand.plan.courses().get(usize::from(agent)) else {
        return Ok(());
    };
    let part = at_hand.dependencies.part(agent).unwrap();
    let acts = acts_ahead(alloc, &part, course.acts(), ahead)?;
    left.push(part.cell(ahead.begun).unwrap(), acts)?;
    Ok(())
}

/// What an agent does from the step on; nothing where it has no move left.
fn acts_ahead(
    alloc: Global,
    part: &Part<'_>,
    acts: &[Act],
    ahead: Ahead,
) -> Result<Vec<Act>, AllocError>
    ensures { (tt : Timetable) (is : IsPartOf tt part.now)
        → IfOk result (λ left. left.items
        ≡ (left_course is.track ahead.begun ahead.first acts.now).acts) }
{
    if ahead.begun < part.own_moves() {
        let left = left_acts(alloc, acts, ahead.begun)?;
        acts_from(alloc, &left, ahead.first as usize)
    } else {
        Ok(Vec::new(alloc))
    }
}

/// The acts from a step on.
fn acts_from(alloc: Global, acts: &[Act], step: usize) -> Result<Vec<Act>, AllocError>
    ensures { IfOk result (λ kept. kept.items ≡ drop step acts.now) }
{
    acts[step.min(acts.len())..].to_vec(alloc)
}

/// The acts, where so many of the moves are made already.
fn left_acts(alloc: Global, acts: &[Act], made: u32) -> Result<Vec<Act>, AllocError>
    ensures { IfOk result (λ left. left.items ≡ left_acts made acts.now) }
{
    let mut left = Vec::new(alloc);
    let mut made = made;
    for act in acts {
        left.push(left_act(made, *act))?;
        made = made_behind(made, *act);
    }
    Ok(left)
}

/// Where so many moves are made already, the agent waits in place of the next act.
fn left_act(made: u32, act: Act) -> Act
    ensures { result ≡ left_act made act }
{
    if made == 0 { act } else { Act::Wait }
}

/// So many of them are then among the acts that follow.
fn made_behind(made: u32, act: Act) -> u32
    ensures { result ≡ made_behind made act }
{
    match act {
        Act::Wait => made,
        _ => made.saturating_sub(1),
    }
}

/// The first step in which one of the agents has a move that it hasn't begun; 0 where none has one.
fn first_step(
    dependencies: &Dependencies,
    found: &[Result<u32, AgentFault>],
    without: Option<u16>,
) -> u32
    ensures { result ≡ first_step dependencies.now found.now without }
{
    let mut first = None;
    for agent in 0..dependencies.agents() {
        first = sooner_step(first, next_step(dependencies, found, without, agent as u16));
    }
    first.unwrap_or(0)
}

/// In which step an agent has its next move, if it has one.
fn next_step(
    dependencies: &Dependencies,
    found: &[Result<u32, AgentFault>],
    without: Option<u16>,
    agent: u16,
) -> Option<u32>
    ensures { result ≡ next_step dependencies.now found.now without agent }
{
    if is_left_out(without, agent) {
        return None;
    }
    match dependencies.route(u32::from(agent)) {
        Some(route) => route.step(begun_by(found, agent)),
        None => None,
    }
}

fn sooner_step(one: Option<u32>, other: Option<u32>) -> Option<u32>
    ensures { result ≡ sooner_step one other }
{
    match (one, other) {
        (None, other) => other,
        (one, None) => one,
        (Some(one), Some(other)) => Some(one.min(other)),
    }
}
