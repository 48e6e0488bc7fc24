//! Why a proof's text could not be read, or proves nothing.
ghost use Rattle.std.specs.Prelude.{◌≡◌, Some};
ghost use Rattle.text_io.specs.FaultWords.{words_of, words_text};
ghost use Rattle.proof_text.specs.FaultWords.{proof_fault_words};
ghost use Rattle.proof_text.specs.declared.proof_fault.ProofFault.TheVariants.{OutOfMemory as out_of_memory};

use std::alloc::AllocError;
use std::fmt;
use text_io::{Failure, FaultName, FaultWords, Origin};
use thiserror::Error;

/// The first fault of a proof's text with its line from 1 on, why the proof is refused there, or
/// why it was not read to that point.
#[derive(Clone, Copy, Debug, PartialEq, Eq, Error)]
pub enum ProofFault {
    BadHeader(u64),
    BadNode(u64),
    BadNumber(u64),
    TooMany(u64),
    Unfinished(u64),
    TextAfter(u64),
    /// A node names an agent that the plan has not.
    NoSuchAgent(u64),
    /// A node names a cell that is not on the map.
    OffMap(u64),
    /// What the agents cost at least at a leaf is so much, and that is below the bound.
    LeafTooLow(u64, u32),
    /// What a search has found proves nothing; never due.
    NotTight,
    ReadFailed,
    OutOfMemory,
}

impl ProofFault {
    /// The words in which it is told.
    pub fn words(self) -> FaultWords
        ensures { words_of result ≡ proof_fault_words self }
    {
        let words = match self {
            ProofFault::BadHeader(line) => FaultWords::new(FaultName::BadHeader, &[line]),
            ProofFault::BadNode(line) => FaultWords::new(FaultName::BadNode, &[line]),
            ProofFault::BadNumber(line) => FaultWords::new(FaultName::BadNumber, &[line]),
            ProofFault::TooMany(line) => FaultWords::new(FaultName::TooMany, &[line]),
            ProofFault::Unfinished(line) => FaultWords::new(FaultName::Unfinished, &[line]),
            ProofFault::TextAfter(line) => FaultWords::new(FaultName::TextAfter, &[line]),
            ProofFault::NoSuchAgent(line) => FaultWords::new(FaultName::NoSuchAgent, &[line]),
            ProofFault::OffMap(line) => FaultWords::new(FaultName::OffMap, &[line]),
            ProofFault::LeafTooLow(line, least) => {
                FaultWords::new(FaultName::LeafTooLow, &[line, u64::from(least)])
            }
            ProofFault::NotTight => FaultWords::new(FaultName::NotTight, &[]),
            ProofFault::ReadFailed => Failure::ReadFailed.words(),
            ProofFault::OutOfMemory => Failure::OutOfMemory.words(),
        };
        words.of(Origin::Proof)
    }
}

impl fmt::Display for ProofFault {
    ghost output = { λ fault. Some (words_text (proof_fault_words fault)) };

    fn fmt<W: fmt::Write>(&self, f: &mut fmt::Formatter<W>) -> fmt::Result {
        self.words().fmt(f)
    }
}

impl From<AllocError> for ProofFault {
    ghost from_gives = { λ _ e. e ≡ out_of_memory };

    fn from(_e: AllocError) -> ProofFault {
        ProofFault::OutOfMemory
    }
}
