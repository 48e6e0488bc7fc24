//! What the definitions mean.
ghost use Rattle.std.specs.Prelude.{◌≡◌, List};
ghost use Rattle.grid.specs.Map.{Grid};
ghost use Rattle.model.specs.declared.plan_fault.PlanFault.{PlanFault};
ghost use Rattle.model.specs.Plan.{Plan};
ghost use Rattle.checker.specs.AllFaults.{AreAllFaults};

/// A plan has one list of all faults at the most.
pub fn one_list_of_faults()
    ensures { (m : Grid) (p : Plan) (faults others : List PlanFault) → AreAllFaults m p faults
        → AreAllFaults m p others → faults ≡ others }
{}
