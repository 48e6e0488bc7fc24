//! Why a text of events could not be read.
ghost use Rattle.std.specs.Prelude.{◌≡◌, Some};
ghost use Rattle.text_io.specs.FaultWords.{words_of, words_text};
ghost use Rattle.event_text.specs.FaultWords.{event_fault_words};
ghost use Rattle.event_text.specs.declared.event_fault.EventFault.TheVariants.{OutOfMemory as out_of_memory};

use std::alloc::AllocError;
use std::fmt;
use text_io::{Failure, FaultName, FaultWords, Origin};
use thiserror::Error;

/// The first fault of a text of events, with its line from 1 on, or why the text was not read to
/// that point.
#[derive(Clone, Copy, Debug, PartialEq, Eq, Error)]
pub enum EventFault {
    NoHeader,
    BadEvent(u64),
    Unfinished(u64),
    ReadFailed,
    OutOfMemory,
}

impl EventFault {
    /// The words in which it is told.
    pub fn words(self) -> FaultWords
        ensures { words_of result ≡ event_fault_words self }
    {
        let words = match self {
            EventFault::NoHeader => FaultWords::new(FaultName::NoHeader, &[]),
            EventFault::BadEvent(line) => FaultWords::new(FaultName::BadEvent, &[line]),
            EventFault::Unfinished(line) => FaultWords::new(FaultName::Unfinished, &[line]),
            EventFault::ReadFailed => Failure::ReadFailed.words(),
            EventFault::OutOfMemory => Failure::OutOfMemory.words(),
        };
        words.of(Origin::Events)
    }
}

impl fmt::Display for EventFault {
    ghost output = { λ fault. Some (words_text (event_fault_words fault)) };

    fn fmt<W: fmt::Write>(&self, f: &mut fmt::Formatter<W>) -> fmt::Result {
        self.words().fmt(f)
    }
}

impl From<AllocError> for EventFault {
    ghost from_gives = { λ _ e. e ≡ out_of_memory };

    fn from(_e: AllocError) -> EventFault {
        EventFault::OutOfMemory
    }
}
