//! Why a plan's text could not be read.
ghost use Rattle.std.specs.Prelude.{◌≡◌, Some};
ghost use Rattle.text_io.specs.FaultWords.{words_of, words_text};
ghost use Rattle.plan_text.specs.FaultWords.{plan_text_fault_words};
ghost use Rattle.plan_text.specs.declared.plan_text_fault.PlanTextFault.TheVariants.{OutOfMemory as out_of_memory};

use std::alloc::AllocError;
use std::fmt;
use text_io::{Failure, FaultName, FaultWords, Origin};
use thiserror::Error;

/// The first fault of a plan's text, with its line and column from 1 on, or why the text was not
/// read to that point.
#[derive(Clone, Copy, Debug, PartialEq, Eq, Error)]
pub enum PlanTextFault {
    BadHeader(u64),
    BadNumber(u64),
    TooMany(u64),
    BadAgent(u64),
    BadAct(u64, u32),
    Unfinished(u64),
    TextAfter(u64),
    ReadFailed,
    OutOfMemory,
}

impl PlanTextFault {
    /// The words in which it is told.
    pub fn words(self) -> FaultWords
        ensures { words_of result ≡ plan_text_fault_words self }
    {
        let words = match self {
            PlanTextFault::BadHeader(line) => FaultWords::new(FaultName::BadHeader, &[line]),
            PlanTextFault::BadNumber(line) => FaultWords::new(FaultName::BadNumber, &[line]),
            PlanTextFault::TooMany(line) => FaultWords::new(FaultName::TooMany, &[line]),
            PlanTextFault::BadAgent(line) => FaultWords::new(FaultName::BadAgent, &[line]),
            PlanTextFault::BadAct(line, column) => {
                FaultWords::new(FaultName::BadAct, &[line, u64::from(column)])
            }
            PlanTextFault::Unfinished(line) => FaultWords::new(FaultName::Unfinished, &[line]),
            PlanTextFault::TextAfter(line) => FaultWords::new(FaultName::TextAfter, &[line]),
            PlanTextFault::ReadFailed => Failure::ReadFailed.words(),
            PlanTextFault::OutOfMemory => Failure::OutOfMemory.words(),
        };
        words.of(Origin::Plan)
    }
}

impl fmt::Display for PlanTextFault {
    ghost output = { λ fault. Some (words_text (plan_text_fault_words fault)) };

    fn fmt<W: fmt::Write>(&self, f: &mut fmt::Formatter<W>) -> fmt::Result {
        self.words().fmt(f)
    }
}

impl From<AllocError> for PlanTextFault {
    ghost from_gives = { λ _ e. e ≡ out_of_memory };

    fn from(_e: AllocError) -> PlanTextFault {
        PlanTextFault::OutOfMemory
    }
}
