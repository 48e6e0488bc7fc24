//! Calling `plan`, which passes `plan_text` on: a plan is checked, or comes back with its fault.
ghost use Rattle.std.specs.Prelude.{IfOk, IfErr};
ghost use Rattle.checker.specs.Checking.{IsCheckOf, IsRefusedFor};

use grid::Map;
use plan::{CheckedPlan, Plan, PlanFault, check};
use std::alloc::Global;

/// The plan where it is valid on the map, and else its least fault.
pub fn checked(alloc: Global, map: &Map, plan: Plan) -> Result<CheckedPlan, PlanFault>
    ensures valid { IfOk result (IsCheckOf map.now plan) }
    ensures fault { IfErr result (IsRefusedFor map.now plan) }
{
    match check(alloc, map, plan) {
        Ok(checked) => Ok(checked),
        Err(rejected) => Err(rejected.fault),
    }
}
