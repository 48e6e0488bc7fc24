//! Why no positions of a plan are written.
ghost use Rattle.std.specs.Prelude.{◌≡◌, Some};
ghost use Rattle.text_io.specs.FaultWords.{words_of, words_text};
ghost use Rattle.plan_commands.specs.FaultWords.{path_fault_words};

use planned::PlannedFault;
use std::fmt;
use text_io::{Failure, FaultName, FaultWords};
use thiserror::Error;

/// Why no positions of a plan are written.
#[derive(Clone, Copy, Debug, PartialEq, Eq, Error)]
pub(crate) enum PathFault {
    /// The map or the plan could not be read, or an agent has a bad start or move.
    Planned(PlannedFault),
    /// The plan has no agent with the number that was given.
    NoSuchAgent,
    /// Memory was refused for where the agents are.
    OutOfMemory,
}

impl PathFault {
    /// The words in which it is told.
    pub(crate) fn words(self) -> FaultWords
        ensures { words_of result ≡ path_fault_words self }
    {
        match self {
            PathFault::Planned(fault) => fault.words(),
            PathFault::NoSuchAgent => FaultWords::new(FaultName::NoSuchAgent, &[]),
            PathFault::OutOfMemory => Failure::OutOfMemory.words(),
        }
    }
}

impl fmt::Display for PathFault {
    ghost output = { λ fault. Some (words_text (path_fault_words fault)) };

    fn fmt<W: fmt::Write>(&self, f: &mut fmt::Formatter<W>) -> fmt::Result {
        self.words().fmt(f)
    }
}
