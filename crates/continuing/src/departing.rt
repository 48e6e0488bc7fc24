//! Whether a plan goes on from another, and where it departs from it.
ghost use Rattle.std.specs.Prelude.{◌≡◌, length};
ghost use Rattle.model.specs.Plan.{longest_of};
ghost use Rattle.continuing.specs.Departing.{AnswersContinue};
ghost use Rattle.continuing.specs.Code.Apart.{act_in_step, IsFirstOther, IsFirstApart, IsFirstOf};

use crate::continue_fault::ContinueFault;
use model::Act;
use plan_text::{Course, Plan};

/// Whether the second plan goes on from the first.
pub fn continues(old: &Plan, new: &Plan) -> Result<(), ContinueFault>
    ensures { AnswersContinue old.now new.now result }
{
    if new.number() != old.number() {
        return Err(ContinueFault::OtherNumber);
    }
    if new.agents() != old.agents() {
        return Err(ContinueFault::OtherCount);
    }
    let past = longest(old.courses()) + 1;
    match first_elsewhere(old.courses(), new.courses(), past) {
        (Some(agent), time) => Err(ContinueFault::Departs(agent as u32, time as u32)),
        (None, _) => Ok(()),
    }
}

/// The greatest number of acts: up to that time a plan has the agents' places, and another adds to
/// it.
pub fn longest(courses: &[Course]) -> usize
    ensures { result ≡ longest_of courses.now }
{
    let mut longest = 0;
    for course in courses {
        longest = longest.max(course.acts().len());
    }
    longest
}

/// The first agent that is elsewhere before an end, and when, by time and then by number; without
/// one the end.
fn first_elsewhere(old: &[Course], new: &[Course], past: usize) -> (Option<usize>, usize)
    requires { length new.now ≡ length old.now }
    ensures { IsFirstOf old.now new.now (length old.now) past result.0 result.1 }
{
    let mut first = None;
    let mut time = past;
    for agent in 0..old.len() {
        if let Some(sooner) = first_apart(&old[agent], &new[agent], time) {
            first = Some(agent);
            time = sooner;
        }
    }
    (first, time)
}

/// The first time before an end at which the courses are in different places.
fn first_apart(old: &Course, new: &Course, past: usize) -> Option<usize>
    ensures { IsFirstApart old.now new.now past result }
{
    if past == 0 {
        return None;
    }
    if old.start() != new.start() {
        return Some(0);
    }
    let step = first_other(old.acts(), new.acts(), past - 1)?;
    Some(step + 1)
}

/// The first of so many steps in which the acts differ.
fn first_other(old: &[Act], new: &[Act], steps: usize) -> Option<usize>
    ensures { IsFirstOther old.now new.now steps result }
{
    let end = old.len().max(new.len()).min(steps);
    for step in 0..end {
        if act_in_step(new, step) != act_in_step(old, step) {
            return Some(step);
        }
    }
    None
}

/// The act of a step: a wait after the last.
fn act_in_step(acts: &[Act], step: usize) -> Act
    ensures { result ≡ act_in_step acts.now step }
{
    acts.get(step).copied().unwrap_or(Act::Wait)
}
