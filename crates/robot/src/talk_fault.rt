//! Why a dialogue ended before its input did.
ghost use Rattle.std.specs.Prelude.{◌≡◌, Some};
ghost use Rattle.text_io.specs.FaultWords.{words_of, words_text};
ghost use Rattle.robot.specs.FaultWords.{talk_fault_words};
ghost use Rattle.robot.specs.declared.talk_fault.TalkFault.TheVariants as talk_fault;

use std::alloc::AllocError;
use std::fmt;
use text_io::{Failure, FaultName, FaultWords, Origin, WriteFault};
use thiserror::Error;

/// Why a dialogue ended before its input did.
#[derive(Clone, Copy, Debug, PartialEq, Eq, Error)]
pub enum TalkFault {
    ReadFailed,
    WriteFailed,
    /// The agent's tape failed, and that was answered.
    StoreFailed,
    /// A message showed the agent's tape to be an older one, and that was answered.
    StaleTape,
    /// Nothing was read or written.
    OutOfMemory,
}

impl TalkFault {
    /// The words in which it is told.
    pub fn words(self) -> FaultWords
        ensures { words_of result ≡ talk_fault_words self }
    {
        match self {
            TalkFault::ReadFailed => Failure::ReadFailed.words().of(Origin::Input),
            TalkFault::WriteFailed => Failure::WriteFailed.words(),
            TalkFault::StoreFailed => Failure::StoreFailed.words(),
            TalkFault::StaleTape => FaultWords::new(FaultName::StaleTape, &[]).of(Origin::Tape),
            TalkFault::OutOfMemory => Failure::OutOfMemory.words(),
        }
    }
}

impl fmt::Display for TalkFault {
    ghost output = { λ fault. Some (words_text (talk_fault_words fault)) };

    fn fmt<W: fmt::Write>(&self, f: &mut fmt::Formatter<W>) -> fmt::Result {
        self.words().fmt(f)
    }
}

impl From<WriteFault> for TalkFault {
    ghost from_gives = { λ _ f. f ≡ talk_fault.WriteFailed };

    fn from(_: WriteFault) -> TalkFault {
        TalkFault::WriteFailed
    }
}

impl From<AllocError> for TalkFault {
    ghost from_gives = { λ _ f. f ≡ talk_fault.OutOfMemory };

    fn from(_: AllocError) -> TalkFault {
        TalkFault::OutOfMemory
    }
}
