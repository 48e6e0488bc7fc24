//! A plan that was read and checked on its map.
ghost use Rattle.std.specs.Prelude.{MatchResult, ◌≡◌};
ghost use Rattle.check_commands.specs.CheckCommand.{ReadsNot};
ghost use Rattle.check_commands.specs.Code.OnMap.{ReadsOn};

use checker::{CheckedPlan, Rejected, check};
use grid::{Map, read_map};
use plan_text::read_plan;
use planned::PlannedFault;
use std::alloc::Global;
use std::io::Read;
use text_io::Counted;

/// A map, and a plan that was checked on it.
#[derive(Drop)]
pub(crate) struct OnMap {
    pub(crate) map: Map,
    pub(crate) checked: Result<CheckedPlan, Rejected>,
}

/// Reads the map and then the plan, and checks the plan.
pub(crate) fn read_on_map<M: Read, P: Read>(
    alloc: Global,
    map: &mut Counted<M>,
    plan: &mut Counted<P>,
) -> Result<OnMap, PlannedFault>
    ensures { MatchResult result (ReadsOn M.remaining P.remaining map.old map.new plan.old plan.new)
        (ReadsNot M.remaining P.remaining map.old map.new plan.old plan.new) }
{
    let map = read_map(alloc, map)?;
    let plan = read_plan(alloc, plan)?;
    let checked = check(alloc, &map, plan);
    Ok(OnMap { map, checked })
}
