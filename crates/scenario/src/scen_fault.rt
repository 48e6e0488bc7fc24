//! Why a scenario could not be read.
ghost use Rattle.std.specs.Prelude.{◌≡◌, Some};
ghost use Rattle.text_io.specs.FaultWords.{words_of, words_text};
ghost use Rattle.scenario.specs.FaultWords.{scen_fault_words};
ghost use Rattle.scenario.specs.declared.scen_fault.ScenFault.TheVariants.{OutOfMemory as out_of_memory};

use std::alloc::AllocError;
use std::fmt;
use text_io::{Failure, FaultName, FaultWords, Origin};
use thiserror::Error;

/// The first fault of a scenario text, with its line and field from 1 on, or why the text was not
/// read to that point.
#[derive(Clone, Copy, Debug, PartialEq, Eq, Error)]
pub enum ScenFault {
    NoVersion,
    FieldCount(u64),
    BadNumber(u64, u32),
    OutOfGrid(u64),
    BadLength(u64),
    ReadFailed,
    OutOfMemory,
    LineTooLong(u64),
}

impl ScenFault {
    /// The words in which it is told.
    pub fn words(self) -> FaultWords
        ensures { words_of result ≡ scen_fault_words self }
    {
        let words = match self {
            ScenFault::NoVersion => FaultWords::new(FaultName::NoVersion, &[]),
            ScenFault::FieldCount(line) => FaultWords::new(FaultName::FieldCount, &[line]),
            ScenFault::BadNumber(line, field) => {
                FaultWords::new(FaultName::BadNumber, &[line, u64::from(field)])
            }
            ScenFault::OutOfGrid(line) => FaultWords::new(FaultName::OutOfGrid, &[line]),
            ScenFault::BadLength(line) => FaultWords::new(FaultName::BadLength, &[line]),
            ScenFault::ReadFailed => Failure::ReadFailed.words(),
            ScenFault::OutOfMemory => Failure::OutOfMemory.words(),
            ScenFault::LineTooLong(line) => FaultWords::new(FaultName::LineTooLong, &[line]),
        };
        words.of(Origin::Scenario)
    }
}

impl fmt::Display for ScenFault {
    ghost output = { λ fault. Some (words_text (scen_fault_words fault)) };

    fn fmt<W: fmt::Write>(&self, f: &mut fmt::Formatter<W>) -> fmt::Result {
        self.words().fmt(f)
    }
}

impl From<AllocError> for ScenFault {
    ghost from_gives = { λ _ e. e ≡ out_of_memory };

    fn from(_e: AllocError) -> ScenFault {
        ScenFault::OutOfMemory
    }
}
