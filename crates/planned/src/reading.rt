//! Reading a map and a plan, and checking the plan on the map.
ghost use Rattle.planned.specs.Planned.{ReadsAtHand, ReadsChecked, ReadsTimetable};

use crate::PlannedFault;
use checker::{CheckedPlan, check};
use continuing::copy;
use depgraph::{Dependencies, Graph};
use grid::{Map, read_map};
use model::PlanFault;
use plan_text::{Plan, read_plan};
use std::alloc::Global;
use std::io::Read;
use text_io::Counted;

/// Reads the map and then the plan, and checks the plan.
pub fn read_checked<M: Read, P: Read>(
    alloc: Global,
    map: &mut Counted<M>,
    plan: &mut Counted<P>,
) -> Result<CheckedPlan, PlannedFault>
    ensures { ReadsChecked M.remaining P.remaining map.old map.new plan.old plan.new result }
{
    let map = read_map(alloc, map)?;
    let plan = read_plan(alloc, plan)?;
    Ok(check(alloc, &map, plan)?)
}

/// The same, and tells which of the plan's moves wait for which.
pub fn read_dependencies<M: Read, P: Read>(
    alloc: Global,
    map: &mut Counted<M>,
    plan: &mut Counted<P>,
) -> Result<Dependencies, PlannedFault>
    ensures { ReadsTimetable M.remaining P.remaining map.old map.new plan.old plan.new result }
{
    let plan = read_checked(alloc, map, plan)?;
    Ok(Dependencies::build(alloc, &plan)?)
}

/// The same, and tells the visits of each cell too.
pub fn read_graph<M: Read, P: Read>(
    alloc: Global,
    map: &mut Counted<M>,
    plan: &mut Counted<P>,
) -> Result<Graph, PlannedFault>
    ensures { ReadsTimetable M.remaining P.remaining map.old map.new plan.old plan.new result }
{
    let plan = read_checked(alloc, map, plan)?;
    Ok(Graph::build(alloc, &plan)?)
}

/// A plan as it was read, which is valid on its map, and what its moves wait for.
#[derive(Debug, Drop)]
pub struct PlanAtHand {
    pub map: Map,
    pub plan: Plan,
    pub dependencies: Dependencies,
}

/// Reads as `read_dependencies` does, and keeps the map and the plan.
pub fn read_at_hand<M: Read, P: Read>(
    alloc: Global,
    map: &mut Counted<M>,
    plan: &mut Counted<P>,
) -> Result<PlanAtHand, PlannedFault>
    ensures { ReadsAtHand M.remaining P.remaining map.old map.new plan.old plan.new result }
{
    let map = read_map(alloc, map)?;
    let plan = read_plan(alloc, plan)?;
    // Before the check, which takes the plan.
    let Ok(whole) = copy(alloc, &plan) else {
        return Err(PlannedFault::Plan(PlanFault::OutOfMemory));
    };
    let checked = check(alloc, &map, plan)?;
    Ok(PlanAtHand {
        map,
        plan: whole,
        dependencies: Dependencies::build(alloc, &checked)?,
    })
}
