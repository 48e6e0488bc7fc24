//! Why a search has no answer.
ghost use Rattle.std.specs.Prelude.{◌≡◌, Some};
ghost use Rattle.least_steps.specs.FaultWords.{step_fault_words};
ghost use Rattle.least_steps.specs.declared.step_fault.StepFault.TheVariants.{OutOfMemory as out_of_memory};
ghost use Rattle.text_io.specs.FaultWords.{words_of, words_text};

use std::alloc::AllocError;
use std::fmt;
use text_io::{Failure, FaultName, FaultWords};
use thiserror::Error;

/// Why a search has no answer.
#[derive(Clone, Copy, Debug, PartialEq, Eq, Error)]
pub enum StepFault {
    /// What the search has found proves nothing.
    NotTight,
    OutOfMemory,
}

impl StepFault {
    /// The words in which it is told.
    pub fn words(self) -> FaultWords
        ensures { words_of result ≡ step_fault_words self }
    {
        match self {
            StepFault::NotTight => FaultWords::new(FaultName::NotTight, &[]),
            StepFault::OutOfMemory => Failure::OutOfMemory.words(),
        }
    }
}

impl fmt::Display for StepFault {
    ghost output = { λ fault. Some (words_text (step_fault_words fault)) };

    fn fmt<W: fmt::Write>(&self, f: &mut fmt::Formatter<W>) -> fmt::Result {
        self.words().fmt(f)
    }
}

impl From<AllocError> for StepFault {
    ghost from_gives = { λ _ e. e ≡ out_of_memory };

    fn from(_e: AllocError) -> StepFault {
        StepFault::OutOfMemory
    }
}
