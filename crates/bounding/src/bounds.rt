//! What each agent of a plan needs at least.
ghost use Rattle.std.specs.Prelude.{◌≡◌, ◌++◌, ◌∷◌, [], IfOk};
ghost use Rattle.bounding.specs.Bounding.{AreBounds, BoundsAll};
ghost use Rattle.bounding.specs.Code.Searching.{IsBoundAt};

use checker::CheckedPlan;
use grid::Map;
use least_steps::{StepFault, StepSearch};
use std::alloc::{AllocError, Global};

/// What each agent of the plan needs at least by itself, agent 0 first; the plan is to be one that
/// was checked on this map.
pub fn bounds_of(alloc: Global, map: &Map, plan: &CheckedPlan) -> Result<Vec<u32>, StepFault>
    ensures bounds { IfOk result (λ b. AreBounds map.now plan.now.timetable.tracks b.items) }
    ensures all { IfOk result (λ b. BoundsAll map.now plan.now.timetable.tracks b.items) }
{
    crate::laws::bounds_hold();
    let mut search = StepSearch::on(alloc, map)?;
    let mut bounds = Vec::new(alloc);
    for agent in 0..plan.agents() {
        let bound = bound_of(&mut search, plan, agent)?;
        add(&mut bounds, bound)?;
    }
    Ok(bounds)
}

/// What an agent needs at least.
fn bound_of(search: &mut StepSearch<'_>, plan: &CheckedPlan, agent: u32) -> Result<u32, StepFault>
    ensures search { search.new ≡ search.old }
    ensures bound { IfOk result (IsBoundAt search.old plan.now.timetable.tracks agent) }
{
    let Some(start) = plan.position(agent, 0) else {
        return Err(StepFault::NotTight);
    };
    let Some(cost) = plan.cost(agent) else {
        return Err(StepFault::NotTight);
    };
    let Some(last) = plan.position(agent, cost) else {
        return Err(StepFault::NotTight);
    };
    // No plan that was checked on the map leads where no walk does.
    let Some(steps) = search.least(start, last)? else {
        return Err(StepFault::NotTight);
    };
    Ok(steps)
}

fn add(bounds: &mut Vec<u32>, bound: u32) -> Result<(), AllocError>
    ensures { IfOk result (λ _. bounds.new.items ≡ bounds.old.items ++ bound ∷ []) }
{
    bounds.push(bound)?;
    Ok(())
}
