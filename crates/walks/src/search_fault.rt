//! Why there is no proposal.
ghost use Rattle.std.specs.Prelude.{◌≡◌, Some};
ghost use Rattle.walks.specs.declared.search_fault.SearchFault.TheVariants.{OutOfMemory as out_of_memory};
ghost use Rattle.text_io.specs.FaultWords.{words_of, words_text};
ghost use Rattle.walks.specs.FaultWords.{search_fault_words};

use std::alloc::AllocError;
use std::fmt;
use text_io::{Failure, FaultName, FaultWords};
use thiserror::Error;

/// Why a search proposes nothing.
#[derive(Clone, Copy, Debug, PartialEq, Eq, Error)]
pub enum SearchFault {
    OutOfRange,
    OutOfMemory,
}

impl SearchFault {
    /// The words in which it is told.
    pub fn words(self) -> FaultWords
        ensures { words_of result ≡ search_fault_words self }
    {
        match self {
            SearchFault::OutOfRange => FaultWords::new(FaultName::OutOfRange, &[]),
            SearchFault::OutOfMemory => Failure::OutOfMemory.words(),
        }
    }
}

impl fmt::Display for SearchFault {
    ghost output = { λ fault. Some (words_text (search_fault_words fault)) };

    fn fmt<W: fmt::Write>(&self, f: &mut fmt::Formatter<W>) -> fmt::Result {
        self.words().fmt(f)
    }
}

impl From<AllocError> for SearchFault {
    ghost from_gives = { λ _ e. e ≡ out_of_memory };

    fn from(_e: AllocError) -> SearchFault {
        SearchFault::OutOfMemory
    }
}
