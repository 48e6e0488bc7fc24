//! Want of memory.
ghost use Rattle.std.specs.Prelude.{◌≡◌, Some};
ghost use Rattle.text_io.specs.FaultWords.{failed, words_of, words_text};
ghost use Rattle.text_io.specs.declared.failure.Failure.TheVariants as failure;

use crate::{Failure, FaultWords};
use std::alloc::AllocError;
use std::fmt;
use thiserror::Error;

/// Memory was refused.
#[derive(Clone, Copy, Debug, PartialEq, Eq, Error)]
pub struct OutOfMemory;

impl OutOfMemory {
    /// The words in which it is told.
    pub fn words(self) -> FaultWords
        ensures { words_of result ≡ failed failure.OutOfMemory }
    {
        Failure::OutOfMemory.words()
    }
}

impl fmt::Display for OutOfMemory {
    ghost output = { λ _. Some (words_text (failed failure.OutOfMemory)) };

    fn fmt<W: fmt::Write>(&self, f: &mut fmt::Formatter<W>) -> fmt::Result {
        self.words().fmt(f)
    }
}

impl From<AllocError> for OutOfMemory {
    fn from(_: AllocError) -> OutOfMemory {
        OutOfMemory
    }
}
