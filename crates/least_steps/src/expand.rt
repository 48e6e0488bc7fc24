//! The steps from a place.
ghost use Rattle.std.specs.Prelude.{◌≡◌, ◌+◌, ◌*◌, ◌<◌, ◌≤◌, IfOk, false};
ghost use Rattle.least_steps.specs.Code.Exploring.{Has, IsLeft};
ghost use Rattle.least_steps.specs.Code.Steps.{IsLegalStep, cell_behind, weight};
ghost use Rattle.least_steps.specs.Code.Waiting.{Goes, IsPlace};

use crate::joining::number_of;
use crate::open_list::{Course, Open, OpenList};
use crate::reached::Reached;
use crate::step_fault::StepFault;
use crate::steps::{cell_after, first_of, onward, weight_of, without};
use walks::STRAIGHT;

/// No least walk on a map has a number as great: for each diagonal step it leaves out two cells of
/// its own.
const MOST_STEPPED: u64 = 4_194_304 * STRAIGHT;

/// Takes the legal steps from a place, but for those in whose place the cell before has others.
#[inline(always)]
pub(crate) fn expand(
    reached: &mut Reached,
    waiting: &mut OpenList,
    place: Open,
    course: Course,
) -> Result<(), StepFault>
    requires place { IsPlace reached.old place }
    requires has { Has reached.old place.cell place.number }
    ensures goes { Goes reached.old waiting.old reached.new waiting.new }
    ensures left { IfOk result (λ _. IsLeft reached.new place.cell place.number) }
{
    if place.number > MOST_STEPPED {
        return Err(StepFault::NotTight);
    }
    let legal = reached.legal(place.cell);
    let mut steps = onward(place.by, legal, reached.is_aslant());
    while steps != 0 {
        let step = first_of(steps);
        steps = without(steps, step);
        go(reached, waiting, place, step, course)?;
    }
    Ok(())
}

/// Takes a legal step from a place: keeps that a walk leads on by it, unless one is known that is
/// no longer.
#[inline(always)]
fn go(
    reached: &mut Reached,
    waiting: &mut OpenList,
    from: Open,
    step: u32,
    course: Course,
) -> Result<(), StepFault>
    requires place { IsPlace reached.old from }
    requires has { Has reached.old from.cell from.number }
    requires most { from.number ≤ 4194304 * 6625109 }
    requires step { step < 8 }
    requires legal { IsLegalStep reached.old.map from.cell step }
    requires kind { reached.old.aslant ≡ false → step < 4 }
    ensures goes { Goes reached.old waiting.old reached.new waiting.new }
    ensures has { IfOk result
        (λ _. Has reached.new (cell_behind step from.cell) (from.number + weight step)) }
{
    let number = from.number + weight_of(step);
    let cell = cell_after(reached.map(), from.cell, step);
    let at = number_of(reached.map(), cell);
    if reached.is_above(at, cell, number) {
        waiting.push(
            Open {
                number,
                cell,
                by: step,
            },
            course,
        )?;
        reached.lower(at, cell, number);
    }
    Ok(())
}
