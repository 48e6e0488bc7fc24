//! Why bytes are no message.
ghost use Rattle.std.specs.Prelude.{◌≡◌, Some};
ghost use Rattle.text_io.specs.FaultWords.{words_of, words_text};
ghost use Rattle.model.specs.FaultWords.{msg_fault_words};

use std::fmt;
use text_io::{FaultName, FaultWords};
use thiserror::Error;

/// What is wrong with the bytes of a message.
#[derive(Clone, Copy, Debug, PartialEq, Eq, Hash, Error)]
pub enum MsgFault {
    BadLength,
    BadMagic,
    BadVersion,
    /// The entry with this number, counted from 0, has the number 0, or its agent is not greater
    /// than the one before.
    BadEntry(u32),
}

impl MsgFault {
    /// The words in which it is told.
    pub fn words(self) -> FaultWords
        ensures { words_of result ≡ msg_fault_words self }
    {
        match self {
            MsgFault::BadLength => FaultWords::new(FaultName::BadLength, &[]),
            MsgFault::BadMagic => FaultWords::new(FaultName::BadMagic, &[]),
            MsgFault::BadVersion => FaultWords::new(FaultName::BadVersion, &[]),
            MsgFault::BadEntry(entry) => FaultWords::new(FaultName::BadEntry, &[u64::from(entry)]),
        }
    }
}

impl fmt::Display for MsgFault {
    ghost output = { λ fault. Some (words_text (msg_fault_words fault)) };

    fn fmt<W: fmt::Write>(&self, f: &mut fmt::Formatter<W>) -> fmt::Result {
        self.words().fmt(f)
    }
}
