//! Why a plan is not found to continue another.
ghost use Rattle.std.specs.Prelude.{◌≡◌, Some};
ghost use Rattle.text_io.specs.FaultWords.{words_of, words_text};
ghost use Rattle.plan_commands.specs.FaultWords.{continuation_fault_words};
ghost use Rattle.plan_commands.specs.declared.continuation_fault.ContinuationFault.TheVariants as continuation_fault;

use continuing::ContinueFault;
use grid::MapFault;
use model::PlanFault;
use plan_text::PlanTextFault;
use std::fmt;
use text_io::{FaultWords, Origin};
use thiserror::Error;

/// Why a plan is not found to continue another.
#[derive(Clone, Copy, Debug, PartialEq, Eq, Error)]
pub(crate) enum ContinuationFault {
    /// The map could not be read.
    Map(MapFault),
    /// The old plan could not be read.
    OldText(PlanTextFault),
    /// The new plan could not be read.
    NewText(PlanTextFault),
    /// The old plan is not valid, or its check was refused memory.
    Old(PlanFault),
    /// The new plan is not valid, or its check was refused memory.
    New(PlanFault),
    /// Both are valid, and the new one doesn't continue the old one.
    Apart(ContinueFault),
}

impl ContinuationFault {
    /// The words in which it is told: those of the inner fault. An explanation knows which plan has
    /// it.
    pub(crate) fn words(self) -> FaultWords
        ensures { words_of result ≡ continuation_fault_words self }
    {
        match self {
            ContinuationFault::Map(fault) => fault.words(),
            ContinuationFault::OldText(fault) => fault.words().of(Origin::OldPlan),
            ContinuationFault::NewText(fault) => fault.words(),
            ContinuationFault::Old(fault) => fault.words().of(Origin::OldPlan),
            ContinuationFault::New(fault) => fault.words(),
            ContinuationFault::Apart(fault) => fault.words(),
        }
    }
}

impl fmt::Display for ContinuationFault {
    ghost output = { λ fault. Some (words_text (continuation_fault_words fault)) };

    fn fmt<W: fmt::Write>(&self, f: &mut fmt::Formatter<W>) -> fmt::Result {
        self.words().fmt(f)
    }
}

impl From<MapFault> for ContinuationFault {
    ghost from_gives = { λ e f. f ≡ continuation_fault.Map e };

    fn from(e: MapFault) -> ContinuationFault {
        ContinuationFault::Map(e)
    }
}

impl From<ContinueFault> for ContinuationFault {
    ghost from_gives = { λ e f. f ≡ continuation_fault.Apart e };

    fn from(e: ContinueFault) -> ContinuationFault {
        ContinuationFault::Apart(e)
    }
}
