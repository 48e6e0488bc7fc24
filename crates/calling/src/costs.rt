//! Calling `least_steps` and `bounding`: the shortest walk, what one agent needs at least, and what
//! each of a plan does.
ghost use Rattle.std.specs.Prelude.{IfOk};
ghost use Rattle.walks.specs.Certificate.{IsLeast};
ghost use Rattle.least_steps.specs.LeastSteps.{IsLeastSteps};
ghost use Rattle.bounding.specs.Bounding.{AreBounds};

use bounding::bounds_of;
use grid::{Cell, Map};
use least_steps::{StepFault, StepSearch};
use plan::CheckedPlan;
use scen::Length;
use std::alloc::Global;

/// The least number of straight steps, `None` within where none lead there.
pub fn steps_between(
    alloc: Global,
    map: &Map,
    start: Cell,
    goal: Cell,
) -> Result<Option<u32>, StepFault>
    ensures { IfOk result (IsLeastSteps map.now start goal) }
{
    let mut search = StepSearch::on(alloc, map)?;
    search.least(start, goal)
}

/// The length of the shortest walks, `None` within where none lead there.
pub fn length_between(
    alloc: Global,
    map: &Map,
    start: Cell,
    goal: Cell,
) -> Result<Option<Length>, StepFault>
    ensures { IfOk result (IsLeast map.now start goal) }
{
    let mut search = StepSearch::on(alloc, map)?;
    search.shortest(start, goal)
}

/// What each agent of a plan needs at least by itself.
pub fn least_costs(alloc: Global, map: &Map, plan: &CheckedPlan) -> Result<Vec<u32>, StepFault>
    ensures { IfOk result (λ b. AreBounds map.now plan.now.timetable.tracks b.items) }
{
    bounds_of(alloc, map, plan)
}
