//! Calling `checker`: what is wrong with a plan, beyond its least fault.
ghost use Rattle.std.specs.Prelude.{IfOk};
ghost use Rattle.checker.specs.AllFaults.{AreFirstFaults};

use checker::{Faults, first_faults};
use grid::Map;
use plan::Plan;
use std::alloc::{AllocError, Global};

/// The ten first faults of a plan, of which an empty list says that there are none.
pub fn ten_faults(alloc: Global, map: &Map, plan: &Plan) -> Result<Faults, AllocError>
    ensures { IfOk result (λ f. AreFirstFaults map.now plan.now 10 f.listed.items f.more f.agents) }
{
    first_faults(alloc, map, plan, 10)
}
