//! The timetable of a valid plan: its courses without what the agents wait at their ends.
ghost use Rattle.std.specs.Prelude.{◌≡◌, ◌↔◌, IsTrue, map, take};
ghost use Rattle.model.specs.Plan.{IsValid};
ghost use Rattle.checker.specs.Checking.{IsCheckOf};
ghost use Rattle.checker.specs.Code.Resting.{rested, rested_acts};

use crate::checked_plan::CheckedPlan;
use grid::Map;
use model::Act;
use plan_text::{Course, Plan};

/// What a valid plan says.
pub(crate) fn timetable_of(grid: &Map, plan: Plan) -> CheckedPlan
    requires { IsValid grid.now plan }
    ensures { IsCheckOf grid.now plan result }
{
    model::laws::timetables();
    let number = plan.number();
    let courses = rested(plan.into_courses());
    CheckedPlan::from_courses(number, courses, grid.width(), grid.height())
}

fn rested(mut courses: Vec<Course>) -> Vec<Course>
    ensures { result.items ≡ map rested courses.items }
{
    rest_all(&mut courses);
    courses
}

fn rest_all(courses: &mut [Course])
    ensures { courses.new ≡ map rested courses.old }
{
    for index in 0..courses.len() {
        rest(&mut courses[index]);
    }
}

/// Leaves out what the agent waits at its end.
fn rest(course: &mut Course)
    ensures { course.new ≡ rested course.old }
{
    let count = count_without_waits(course.acts());
    course.truncate(count);
}

/// How many acts there are before the waits at the end.
fn count_without_waits(acts: &[Act]) -> usize
    ensures { take result acts.now ≡ rested_acts acts.now }
{
    let mut kept = acts.len();
    while kept > 0 && is_wait(acts[kept - 1]) {
        kept -= 1;
    }
    kept
}

fn is_wait(act: Act) -> bool
    ensures { IsTrue result ↔ (act ≡ Act.Wait) }
{
    matches!(act, Act::Wait)
}
