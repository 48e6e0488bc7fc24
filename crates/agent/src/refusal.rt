//! Why an agent refuses.
ghost use Rattle.std.specs.Prelude.{◌≡◌, Some};
ghost use Rattle.text_io.specs.FaultWords.{words_of, words_text};
ghost use Rattle.agent.specs.FaultWords.{open_fault_words, refusal_words};
ghost use Rattle.agent.specs.FaultWords.{hear_fault_words, tell_fault_words};
ghost use Rattle.agent.specs.declared.refusal.HearFault.TheVariants.{Message as message};
ghost use Rattle.agent.specs.declared.refusal.HearFault.TheVariants.{OutOfMemory as out_of_memory};
ghost use Rattle.agent.specs.declared.refusal.TellFault.TheVariants.{OutOfMemory as no_memory};

use model::MsgFault;
use std::alloc::AllocError;
use std::fmt;
use text_io::{Failure, FaultName, FaultWords};
use thiserror::Error;

/// Why a tape is not opened. Records are counted from 0.
#[derive(Clone, Copy, Debug, PartialEq, Eq, Error)]
pub enum OpenFault {
    NoSuchAgent,
    /// The record says another kind or another number of moves than is due, or begins with another
    /// byte.
    Damaged(u32),
    WrongPlan(u32),
    /// There are more records than two a move.
    TooLong,
    TapeFailed,
    WrongAgent(u32),
    /// There is no room for two records a move.
    NoRoom,
}

impl OpenFault {
    /// The words in which it is told.
    pub fn words(self) -> FaultWords
        ensures { words_of result ≡ open_fault_words self }
    {
        match self {
            OpenFault::NoSuchAgent => FaultWords::new(FaultName::NoSuchAgent, &[]),
            OpenFault::Damaged(record) => FaultWords::new(FaultName::Damaged, &[u64::from(record)]),
            OpenFault::WrongPlan(record) => FaultWords::new(
                FaultName::WrongPlan,
                &[u64::from(record)],
            ),
            OpenFault::TooLong => FaultWords::new(FaultName::TooLong, &[]),
            OpenFault::TapeFailed => Failure::TapeFailed.words(),
            OpenFault::WrongAgent(record) => FaultWords::new(
                FaultName::WrongAgent,
                &[u64::from(record)],
            ),
            OpenFault::NoRoom => FaultWords::new(FaultName::NoRoom, &[]),
        }
    }
}

impl fmt::Display for OpenFault {
    ghost output = { λ fault. Some (words_text (open_fault_words fault)) };

    fn fmt<W: fmt::Write>(&self, f: &mut fmt::Formatter<W>) -> fmt::Result {
        self.words().fmt(f)
    }
}

/// Why a call is refused.
#[derive(Clone, Copy, Debug, PartialEq, Eq, Error)]
pub enum Refusal {
    /// A write of the agent failed, and its tape has not been opened since.
    Broken,
    AlreadyMoving,
    AtEnd,
    /// The agent has not been heard to have finished so many moves.
    Waits { agent: u16, count: u32 },
    NotMoving,
    StoreFailed,
}

impl Refusal {
    /// The words in which it is told.
    pub fn words(self) -> FaultWords
        ensures { words_of result ≡ refusal_words self }
    {
        match self {
            Refusal::Broken => FaultWords::new(FaultName::Broken, &[]),
            Refusal::AlreadyMoving => FaultWords::new(FaultName::AlreadyMoving, &[]),
            Refusal::AtEnd => FaultWords::new(FaultName::AtEnd, &[]),
            Refusal::Waits { agent, count } => FaultWords::new(
                FaultName::Waits,
                &[u64::from(agent), u64::from(count)],
            ),
            Refusal::NotMoving => FaultWords::new(FaultName::NotMoving, &[]),
            Refusal::StoreFailed => Failure::StoreFailed.words(),
        }
    }
}

impl fmt::Display for Refusal {
    ghost output = { λ fault. Some (words_text (refusal_words fault)) };

    fn fmt<W: fmt::Write>(&self, f: &mut fmt::Formatter<W>) -> fmt::Result {
        self.words().fmt(f)
    }
}

/// Why a message is not heard.
#[derive(Clone, Copy, Debug, PartialEq, Eq, Error)]
pub enum HearFault {
    Message(MsgFault),
    WrongPlan,
    NoSuchAgent,
    /// The message tells more moves of an agent than that one has.
    TooMany,
    Broken,
    OutOfMemory,
}

impl HearFault {
    /// The words in which it is told.
    pub fn words(self) -> FaultWords
        ensures { words_of result ≡ hear_fault_words self }
    {
        match self {
            HearFault::Message(fault) => fault.words(),
            HearFault::WrongPlan => FaultWords::new(FaultName::WrongPlan, &[]),
            HearFault::NoSuchAgent => FaultWords::new(FaultName::NoSuchAgent, &[]),
            HearFault::TooMany => FaultWords::new(FaultName::TooMany, &[]),
            HearFault::Broken => FaultWords::new(FaultName::Broken, &[]),
            HearFault::OutOfMemory => Failure::OutOfMemory.words(),
        }
    }
}

impl fmt::Display for HearFault {
    ghost output = { λ fault. Some (words_text (hear_fault_words fault)) };

    fn fmt<W: fmt::Write>(&self, f: &mut fmt::Formatter<W>) -> fmt::Result {
        self.words().fmt(f)
    }
}

/// Why an agent does not tell all that it knows.
#[derive(Clone, Copy, Debug, PartialEq, Eq, Error)]
pub enum TellFault {
    Broken,
    OutOfMemory,
}

impl TellFault {
    /// The words in which it is told.
    pub fn words(self) -> FaultWords
        ensures { words_of result ≡ tell_fault_words self }
    {
        match self {
            TellFault::Broken => FaultWords::new(FaultName::Broken, &[]),
            TellFault::OutOfMemory => Failure::OutOfMemory.words(),
        }
    }
}

impl fmt::Display for TellFault {
    ghost output = { λ fault. Some (words_text (tell_fault_words fault)) };

    fn fmt<W: fmt::Write>(&self, f: &mut fmt::Formatter<W>) -> fmt::Result {
        self.words().fmt(f)
    }
}

impl From<AllocError> for TellFault {
    ghost from_gives = { λ _ e. e ≡ no_memory };

    fn from(_: AllocError) -> TellFault {
        TellFault::OutOfMemory
    }
}

impl From<MsgFault> for HearFault {
    ghost from_gives = { λ fault e. e ≡ message fault };

    fn from(fault: MsgFault) -> HearFault {
        HearFault::Message(fault)
    }
}

impl From<AllocError> for HearFault {
    ghost from_gives = { λ _ e. e ≡ out_of_memory };

    fn from(_: AllocError) -> HearFault {
        HearFault::OutOfMemory
    }
}
