//! Where agents are, on the map or off it, and where a step takes them.
ghost use Rattle.std.specs.Prelude.{◌≡◌, ◌+◌, map, IfOk};
ghost use Rattle.model.specs.Plan.{position_of, position_at, moved};
ghost use Rattle.plan_text.specs.Limits.{IsCourse};
ghost use Rattle.std.specs.List.{AllByRecursion};
ghost use Rattle.checker.specs.Code.Places.{as_position, reversed, stay_at, IsNear};
ghost use Rattle.checker.specs.Code.Places.{IsNamedCell, ActLeads, AreSteps};

use grid::Cell;
use model::Act;
use plan_text::Course;
use std::alloc::{AllocError, Global};

/// A cell, or a place off the map.
#[derive(Clone, Copy, PartialEq, Eq, Hash)]
pub(crate) struct Place {
    pub(crate) x: i32,
    pub(crate) y: i32,
}

/// Where an agent is before a step, and where after it.
#[derive(Clone, Copy, PartialEq, Eq, Hash)]
pub(crate) struct Step {
    pub(crate) from: Place,
    pub(crate) to: Place,
}

impl Place {
    pub(crate) fn of(cell: Cell) -> Place
        ensures { as_position result ≡ position_of cell }
    {
        Place {
            x: i32::from(cell.x),
            y: i32::from(cell.y),
        }
    }

    /// The cell in this place, if a map may have one there.
    pub(crate) fn cell(self) -> Option<Cell>
        ensures { IsNamedCell (as_position self) result }
    {
        if self.x < 0 || self.x > 65_535 || self.y < 0 || self.y > 65_535 {
            return None;
        }
        Some(Cell {
            x: self.x as u16,
            y: self.y as u16,
        })
    }

    /// Where the act leads.
    fn after(self, act: Act) -> Place
        requires { IsNear (as_position self) }
        ensures { as_position result ≡ moved act (as_position self) }
    {
        let Place { x, y } = self;
        match act {
            Act::N => Place { x, y: y - 1 },
            Act::E => Place { x: x + 1, y },
            Act::S => Place { x, y: y + 1 },
            Act::W => Place { x: x - 1, y },
            Act::Wait => self,
        }
    }
}

impl Step {
    /// The step of one who stays.
    pub(crate) fn stay(place: Place) -> Step
        ensures from { result.from ≡ place }
        ensures to { result.to ≡ place }
    {
        Step {
            from: place,
            to: place,
        }
    }

    pub(crate) fn reversed(self) -> Step
        ensures { result ≡ reversed self }
    {
        Step {
            from: self.to,
            to: self.from,
        }
    }
}

/// The agents where they are after so many steps, and where they stay.
pub(crate) fn standing_after(
    alloc: Global,
    courses: &[Course],
    count: u32,
) -> Result<Vec<Step>, AllocError>
    requires { AllByRecursion IsCourse courses.now }
    ensures { IfOk result (λ steps. AreSteps courses.now count count steps.items) }
{
    let mut steps = Vec::with_capacity(alloc, courses.len())?;
    for agent in 0..courses.len() {
        steps.push(Step::stay(place_after(&courses[agent], count)))?;
    }
    Ok(steps)
}

/// Where an agent is after so many steps.
fn place_after(course: &Course, count: u32) -> Place
    requires { IsCourse course.now }
    ensures { as_position result ≡ position_at course.now count }
{
    let acts = course.acts();
    let mut place = Place::of(course.start());
    for number in 0..acts.len().min(count as usize) {
        place = place.after(acts[number]);
    }
    place
}

/// The step with this number, of agents that were taken there by the steps before.
pub(crate) fn steps_after(
    alloc: Global,
    courses: &[Course],
    number: u32,
    standing: &[Step],
) -> Result<Vec<Step>, AllocError>
    requires courses { AllByRecursion IsCourse courses.now }
    requires standing { AreSteps courses.now number number standing.now }
    ensures { IfOk result (λ steps. AreSteps courses.now number (number + 1) steps.items) }
{
    let mut steps = Vec::with_capacity(alloc, courses.len())?;
    for agent in 0..courses.len() {
        let from = standing[agent].to;
        let to = after(courses[agent].acts(), number, from);
        steps.push(Step { from, to })?;
    }
    Ok(steps)
}

/// Where the act with the number leads, or the place itself past the last.
fn after(acts: &[Act], number: u32, place: Place) -> Place
    requires { IsNear (as_position place) }
    ensures { ActLeads acts.now number (as_position place) (as_position result) }
{
    match acts.get(number as usize) {
        Some(act) => place.after(*act),
        None => place,
    }
}

/// The agents where the steps took them, where they stay.
pub(crate) fn arrived(alloc: Global, steps: &[Step]) -> Result<Vec<Step>, AllocError>
    ensures { IfOk result (λ standing. standing.items ≡ map stay_at steps.now) }
{
    let mut standing = Vec::with_capacity(alloc, steps.len())?;
    for step in steps {
        standing.push(Step::stay(step.to))?;
    }
    Ok(standing)
}
