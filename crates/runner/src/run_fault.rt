//! Why a run is not replayed to its end.
ghost use Rattle.std.specs.Prelude.{◌≡◌, Some};
ghost use Rattle.text_io.specs.FaultWords.{words_of, words_text};
ghost use Rattle.runner.specs.FaultWords.{run_fault_words};
ghost use Rattle.runner.specs.declared.run_fault.RunFault.TheVariants as run_fault;

use event_text::EventFault;
use planned::PlannedFault;
use std::fmt;
use text_io::{Failure, FaultWords, OutOfMemory, WriteFault};
use thiserror::Error;

/// Why a run is not replayed to its end.
#[derive(Clone, Copy, Debug, PartialEq, Eq, Error)]
pub enum RunFault {
    /// The map or the plan could not be read, or the plan is not valid, or nobody knows what its
    /// moves wait for: nothing was answered.
    Planned(PlannedFault),
    /// The events could not be read further.
    Events(EventFault),
    WriteFailed,
    /// An agent was refused memory.
    OutOfMemory,
}

impl RunFault {
    /// The words in which it is told: those of the innermost fault.
    pub fn words(self) -> FaultWords
        ensures { words_of result ≡ run_fault_words self }
    {
        match self {
            RunFault::Planned(fault) => fault.words(),
            RunFault::Events(fault) => fault.words(),
            RunFault::WriteFailed => Failure::WriteFailed.words(),
            RunFault::OutOfMemory => Failure::OutOfMemory.words(),
        }
    }
}

impl fmt::Display for RunFault {
    ghost output = { λ fault. Some (words_text (run_fault_words fault)) };

    fn fmt<W: fmt::Write>(&self, f: &mut fmt::Formatter<W>) -> fmt::Result {
        self.words().fmt(f)
    }
}

impl From<PlannedFault> for RunFault {
    ghost from_gives = { λ e f. f ≡ run_fault.Planned e };

    fn from(e: PlannedFault) -> RunFault {
        RunFault::Planned(e)
    }
}

impl From<EventFault> for RunFault {
    ghost from_gives = { λ e f. f ≡ run_fault.Events e };

    fn from(e: EventFault) -> RunFault {
        RunFault::Events(e)
    }
}

impl From<WriteFault> for RunFault {
    ghost from_gives = { λ _ f. f ≡ run_fault.WriteFailed };

    fn from(_: WriteFault) -> RunFault {
        RunFault::WriteFailed
    }
}

impl From<OutOfMemory> for RunFault {
    ghost from_gives = { λ _ f. f ≡ run_fault.OutOfMemory };

    fn from(_: OutOfMemory) -> RunFault {
        RunFault::OutOfMemory
    }
}
