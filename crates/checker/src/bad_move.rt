//! Where agents may start, and which moves are bad.
ghost use Rattle.std.specs.Prelude.{◌≡◌, ◌≢◌, ◌+◌, ◌↔◌, get_or, IsTrue};
ghost use Rattle.model.specs.declared.act.Act.TheVariants.{Wait as wait};
ghost use Rattle.model.specs.Plan.{position_at, IsLegal, IsBadMove};
ghost use Rattle.checker.specs.Code.Places.{as_position};

use crate::places::Step;
use grid::{Map, step4};
use model::Act;
use plan_text::Course;

/// Whether the step is a legal straight one.
fn is_legal(map: &Map, step: Step) -> bool
    ensures { IsTrue result ↔ IsLegal map.now (as_position step.from) (as_position step.to) }
{
    // So its columns and rows are those that a cell has.
    let _width = map.width();
    let Some(from) = step.from.cell() else {
        return false;
    };
    let Some(to) = step.to.cell() else {
        return false;
    };
    step4(map, from, to)
}

/// Whether the agent's act with the number is a bad move, which takes it by this step.
pub(crate) fn is_bad_move(map: &Map, course: &Course, number: u32, step: Step) -> bool
    requires from { as_position step.from ≡ position_at course.now number }
    requires to { as_position step.to ≡ position_at course.now (number + 1) }
    ensures { IsTrue result ↔ IsBadMove map.now course.now number }
{
    if !is_move(act_in(course.acts(), number)) {
        return false;
    }
    !is_legal(map, step)
}

/// The act with the number; a wait past the last.
fn act_in(acts: &[Act], number: u32) -> Act
    ensures { result ≡ get_or acts.now number wait }
{
    acts.get(number as usize).copied().unwrap_or(Act::Wait)
}

fn is_move(act: Act) -> bool
    ensures { IsTrue result ↔ act ≢ wait }
{
    !matches!(act, Act::Wait)
}
