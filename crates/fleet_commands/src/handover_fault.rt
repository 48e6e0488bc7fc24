//! Why a plan isn't handed over.
ghost use Rattle.std.specs.Prelude.{◌≡◌, Some};
ghost use Rattle.text_io.specs.FaultWords.{words_of, words_text};
ghost use Rattle.fleet_commands.specs.FaultWords.{handover_fault_words};
ghost use Rattle.fleet_commands.specs.declared.handover_fault.HandoverFault.TheVariants as handover_fault;

use plan_text::PushFault;
use planned::PlannedFault;
use std::alloc::AllocError;
use std::fmt;
use text_io::{Failure, FaultName, FaultWords};
use thiserror::Error;

/// Why a plan isn't handed over, or not begun anew.
#[derive(Clone, Copy, Debug, PartialEq, Eq, Error)]
pub enum HandoverFault {
    /// The map or the plan could not be read, or the plan is not valid.
    Planned(PlannedFault),
    /// The agent that is to be left out is not one of the plan.
    NoSuchAgent,
    /// The number of the new plan is that of the old one.
    SameNumber,
    /// The tape of this agent has a fault.
    BadTape(u16),
    /// The tapes are not those of one run of the plan: by them a move was begun too early, or two
    /// agents would meet.
    NotOneRun,
    OutOfMemory,
}

impl HandoverFault {
    /// The words in which it is told.
    pub fn words(self) -> FaultWords
        ensures { words_of result ≡ handover_fault_words self }
    {
        match self {
            HandoverFault::Planned(fault) => fault.words(),
            HandoverFault::NoSuchAgent => FaultWords::new(FaultName::NoSuchAgent, &[]),
            HandoverFault::SameNumber => FaultWords::new(FaultName::SameNumber, &[]),
            HandoverFault::BadTape(agent) => FaultWords::new(
                FaultName::BadTape,
                &[u64::from(agent)],
            ),
            HandoverFault::NotOneRun => FaultWords::new(FaultName::NotOneRun, &[]),
            HandoverFault::OutOfMemory => Failure::OutOfMemory.words(),
        }
    }
}

impl fmt::Display for HandoverFault {
    ghost output = { λ fault. Some (words_text (handover_fault_words fault)) };

    fn fmt<W: fmt::Write>(&self, f: &mut fmt::Formatter<W>) -> fmt::Result {
        self.words().fmt(f)
    }
}

impl From<PlannedFault> for HandoverFault {
    ghost from_gives = { λ e f. f ≡ handover_fault.Planned e };

    fn from(e: PlannedFault) -> HandoverFault {
        HandoverFault::Planned(e)
    }
}

// What is left of a plan has no more than the plan: only memory can lack.
impl From<PushFault> for HandoverFault {
    ghost from_gives = { λ _ f. f ≡ handover_fault.OutOfMemory };

    fn from(_: PushFault) -> HandoverFault {
        HandoverFault::OutOfMemory
    }
}

impl From<AllocError> for HandoverFault {
    ghost from_gives = { λ _ f. f ≡ handover_fault.OutOfMemory };

    fn from(_: AllocError) -> HandoverFault {
        HandoverFault::OutOfMemory
    }
}
