//! Why a run is not completed.
ghost use Rattle.std.specs.Prelude.{◌≡◌, Some};
ghost use Rattle.executor.specs.declared.complete_fault.CompleteFault.TheVariants as complete_fault;
ghost use Rattle.text_io.specs.FaultWords.{words_of, words_text};
ghost use Rattle.executor.specs.FaultWords.{complete_fault_words};

use std::alloc::AllocError;
use std::fmt;
use text_io::{Failure, FaultName, FaultWords};
use thiserror::Error;

/// Why a run is not completed.
#[derive(Clone, Copy, Debug, PartialEq, Eq, Error)]
pub enum CompleteFault {
    /// The rotation with this number, counted from 0 as the graph lists them, has a move that isn't
    /// finished.
    Rotation(u32),
    OutOfMemory,
}

impl CompleteFault {
    /// The words in which it is told.
    pub fn words(self) -> FaultWords
        ensures { words_of result ≡ complete_fault_words self }
    {
        match self {
            CompleteFault::Rotation(number) => FaultWords::new(
                FaultName::Rotation,
                &[u64::from(number)],
            ),
            CompleteFault::OutOfMemory => Failure::OutOfMemory.words(),
        }
    }
}

impl fmt::Display for CompleteFault {
    ghost output = { λ fault. Some (words_text (complete_fault_words fault)) };

    fn fmt<W: fmt::Write>(&self, f: &mut fmt::Formatter<W>) -> fmt::Result {
        self.words().fmt(f)
    }
}

impl From<AllocError> for CompleteFault {
    ghost from_gives = { λ _ f. f ≡ complete_fault.OutOfMemory };

    fn from(_: AllocError) -> CompleteFault {
        CompleteFault::OutOfMemory
    }
}
