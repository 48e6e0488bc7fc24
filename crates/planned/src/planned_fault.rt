//! Why there is no checked plan.
ghost use Rattle.std.specs.Prelude.{◌≡◌, Some};
ghost use Rattle.text_io.specs.FaultWords.{words_of, words_text};
ghost use Rattle.planned.specs.FaultWords.{planned_fault_words};
ghost use Rattle.planned.specs.declared.planned_fault.PlannedFault.TheVariants as planned_fault;

use checker::Rejected;
use grid::MapFault;
use model::PlanFault;
use plan_text::PlanTextFault;
use std::fmt;
use text_io::{Failure, FaultWords, OutOfMemory};
use thiserror::Error;

/// Why there is no checked plan, or why nobody knows what its moves wait for.
#[derive(Clone, Copy, Debug, PartialEq, Eq, Error)]
pub enum PlannedFault {
    /// The map could not be read.
    Map(MapFault),
    /// The plan could not be read.
    PlanText(PlanTextFault),
    /// The plan is not valid, or its check was refused memory.
    Plan(PlanFault),
    /// The dependencies were refused memory.
    OutOfMemory,
}

impl PlannedFault {
    /// The words in which it is told: those of the innermost fault.
    pub fn words(self) -> FaultWords
        ensures { words_of result ≡ planned_fault_words self }
    {
        match self {
            PlannedFault::Map(fault) => fault.words(),
            PlannedFault::PlanText(fault) => fault.words(),
            PlannedFault::Plan(fault) => fault.words(),
            PlannedFault::OutOfMemory => Failure::OutOfMemory.words(),
        }
    }
}

impl fmt::Display for PlannedFault {
    ghost output = { λ fault. Some (words_text (planned_fault_words fault)) };

    fn fmt<W: fmt::Write>(&self, f: &mut fmt::Formatter<W>) -> fmt::Result {
        self.words().fmt(f)
    }
}

impl From<MapFault> for PlannedFault {
    ghost from_gives = { λ e f. f ≡ planned_fault.Map e };

    fn from(e: MapFault) -> PlannedFault {
        PlannedFault::Map(e)
    }
}

impl From<PlanTextFault> for PlannedFault {
    ghost from_gives = { λ e f. f ≡ planned_fault.PlanText e };

    fn from(e: PlanTextFault) -> PlannedFault {
        PlannedFault::PlanText(e)
    }
}

impl From<Rejected> for PlannedFault {
    ghost from_gives = { λ e f. f ≡ planned_fault.Plan e.fault };

    fn from(e: Rejected) -> PlannedFault {
        PlannedFault::Plan(e.fault)
    }
}

impl From<OutOfMemory> for PlannedFault {
    ghost from_gives = { λ _ f. f ≡ planned_fault.OutOfMemory };

    fn from(_e: OutOfMemory) -> PlannedFault {
        PlannedFault::OutOfMemory
    }
}
