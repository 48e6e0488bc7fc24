//! Why a plan is not accepted.
ghost use Rattle.std.specs.Prelude.{◌≡◌, IfOk, Some, string_bytes, true};
ghost use Rattle.text_io.specs.FaultWords.{words_of, words_text};
ghost use Rattle.check_commands.specs.FaultWords.{check_fault_words};
ghost use Rattle.check_commands.specs.Code.Verdicts.{is_rejection};
ghost use Rattle.check_commands.specs.VerdictText.{IsPlainText};
ghost use Rattle.check_commands.specs.declared.check_fault.CheckFault.TheVariants as check_fault;

use fitting::FitFault;
use planned::PlannedFault;
use scenario::ScenFault;
use std::alloc::{AllocError, Global};
use std::fmt;
use text_io::FaultWords;
use thiserror::Error;

/// Why a plan is not accepted.
#[derive(Clone, Copy, Debug, PartialEq, Eq, Error)]
pub enum CheckFault {
    /// The map or the plan could not be read, or the plan is not valid, or could not be checked.
    Planned(PlannedFault),
    /// The scenario could not be read.
    Scen(ScenFault),
    /// The plan is valid, and doesn't have what is asked for.
    Unfit(FitFault),
}

impl CheckFault {
    /// The words in which it is told.
    pub fn words(self) -> FaultWords
        ensures { words_of result ≡ check_fault_words self }
    {
        match self {
            CheckFault::Planned(fault) => fault.words(),
            CheckFault::Scen(fault) => fault.words(),
            CheckFault::Unfit(fault) => fault.words(),
        }
    }

    /// The text of why a plan is rejected.
    pub(crate) fn text(self, alloc: Global) -> Result<String, AllocError>
        requires { is_rejection self ≡ true }
        ensures text { IfOk result
            (λ text. string_bytes text ≡ words_text (check_fault_words self)) }
        ensures plain { IfOk result (λ text. IsPlainText (string_bytes text)) }
    {
        self.to_string(alloc)
    }
}

impl fmt::Display for CheckFault {
    ghost output = { λ fault. Some (words_text (check_fault_words fault)) };

    fn fmt<W: fmt::Write>(&self, f: &mut fmt::Formatter<W>) -> fmt::Result {
        self.words().fmt(f)
    }
}

impl From<PlannedFault> for CheckFault {
    ghost from_gives = { λ e f. f ≡ check_fault.Planned e };

    fn from(e: PlannedFault) -> CheckFault {
        CheckFault::Planned(e)
    }
}

impl From<ScenFault> for CheckFault {
    ghost from_gives = { λ e f. f ≡ check_fault.Scen e };

    fn from(e: ScenFault) -> CheckFault {
        CheckFault::Scen(e)
    }
}

impl From<FitFault> for CheckFault {
    ghost from_gives = { λ e f. f ≡ check_fault.Unfit e };

    fn from(e: FitFault) -> CheckFault {
        CheckFault::Unfit(e)
    }
}
