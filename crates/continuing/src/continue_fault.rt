//! Why a plan doesn't go on from another.
ghost use Rattle.std.specs.Prelude.{◌≡◌, Some};
ghost use Rattle.text_io.specs.FaultWords.{words_of, words_text};
ghost use Rattle.continuing.specs.FaultWords.{continue_fault_words};

use std::fmt;
use text_io::{FaultName, FaultWords, Origin};
use thiserror::Error;

/// The first thing that differs: numbers first, and then the places of agents, by time.
#[derive(Clone, Copy, Debug, PartialEq, Eq, Error)]
pub enum ContinueFault {
    /// The plans have different numbers.
    OtherNumber,
    /// There are more or fewer agents.
    OtherCount,
    /// The agent with the first number is elsewhere at the time, which is the second.
    Departs(u32, u32),
}

impl ContinueFault {
    /// The words in which it is told.
    pub fn words(self) -> FaultWords
        ensures { words_of result ≡ continue_fault_words self }
    {
        let words = match self {
            ContinueFault::OtherNumber => FaultWords::new(FaultName::OtherNumber, &[]),
            ContinueFault::OtherCount => FaultWords::new(FaultName::OtherCount, &[]),
            ContinueFault::Departs(agent, time) => {
                FaultWords::new(FaultName::Departs, &[u64::from(agent), u64::from(time)])
            }
        };
        words.of(Origin::Plan)
    }
}

impl fmt::Display for ContinueFault {
    ghost output = { λ fault. Some (words_text (continue_fault_words fault)) };

    fn fmt<W: fmt::Write>(&self, f: &mut fmt::Formatter<W>) -> fmt::Result {
        self.words().fmt(f)
    }
}
