//! Why an agent does not answer its input to the end.
ghost use Rattle.std.specs.Prelude.{◌≡◌, [], Some};
ghost use Rattle.text_io.specs.FaultName.{fault_name};
ghost use Rattle.text_io.specs.FaultWords.{text_fault, words_of, words_text};
ghost use Rattle.agent_commands.specs.FaultWords.{agent_fault_words};
ghost use Rattle.agent_commands.specs.declared.agent_fault.AgentFault.TheVariants as agent_fault;
ghost use Rattle.robot.specs.declared.file_tape.FileTapeFault.TheVariants.{OutOfMemory};

use agent::OpenFault;
use continuing::ContinueFault;
use planned::PlannedFault;
use robot::{FileTapeFault, TalkFault};
use std::alloc::AllocError;
use std::fmt;
use text_io::{Failure, FaultName, FaultWords, Origin};
use thiserror::Error;

/// Why an agent does not answer its input to the end.
#[derive(Clone, Copy, Debug, PartialEq, Eq, Error)]
pub enum AgentFault {
    /// The map or the plan could not be read, or the plan is not valid.
    Planned(PlannedFault),
    /// The tape file could not be opened or made, or is no file like others.
    OpenFailed,
    /// A tape was to be new, and has a record.
    TapeExists,
    /// A tape was to be there, or the plan beside it, and is not.
    NoTape,
    /// The file beside the tape doesn't say which plan the tape belongs to.
    PlanDamaged,
    /// A record was stored on the tape, and it has none.
    TapeEmptied,
    /// The tape belongs to another plan, of which none goes on from the other: where that at hand
    /// departs from it.
    OtherPlan(ContinueFault),
    /// The tape file could not be taken for a tape.
    File(FileTapeFault),
    /// There is no such agent, or the tape is not the agent's.
    Tape(OpenFault),
    /// The dialogue ended early.
    Dialogue(TalkFault),
}

/// A fault of a tape, which has no numbers.
fn of_tape(name: FaultName) -> FaultWords
    ensures { words_of result ≡ text_fault (fault_name name) [] }
{
    FaultWords::new(name, &[]).of(Origin::Tape)
}

impl AgentFault {
    /// The words in which it is told.
    pub fn words(self) -> FaultWords
        ensures { words_of result ≡ agent_fault_words self }
    {
        match self {
            AgentFault::Planned(fault) => fault.words(),
            AgentFault::OpenFailed => Failure::OpenFailed.words().of(Origin::Tape),
            AgentFault::TapeExists => of_tape(FaultName::TapeExists),
            AgentFault::NoTape => of_tape(FaultName::NoTape),
            AgentFault::PlanDamaged => of_tape(FaultName::PlanDamaged),
            AgentFault::TapeEmptied => of_tape(FaultName::TapeEmptied),
            AgentFault::OtherPlan(_) => of_tape(FaultName::OtherPlan),
            AgentFault::File(fault) => fault.words(),
            AgentFault::Tape(OpenFault::NoSuchAgent) => OpenFault::NoSuchAgent.words(),
            AgentFault::Tape(fault) => fault.words().of(Origin::Tape),
            AgentFault::Dialogue(fault) => fault.words(),
        }
    }

    /// A fault that says why, for people.
    pub fn cause(self) -> Option<FaultWords> {
        match self {
            AgentFault::OtherPlan(apart) => Some(apart.words()),
            _ => None,
        }
    }
}

impl fmt::Display for AgentFault {
    ghost output = { λ fault. Some (words_text (agent_fault_words fault)) };

    fn fmt<W: fmt::Write>(&self, f: &mut fmt::Formatter<W>) -> fmt::Result {
        self.words().fmt(f)
    }
}

impl From<PlannedFault> for AgentFault {
    ghost from_gives = { λ e f. f ≡ agent_fault.Planned e };

    fn from(e: PlannedFault) -> AgentFault {
        AgentFault::Planned(e)
    }
}

impl From<AllocError> for AgentFault {
    ghost from_gives = { λ _ f. f ≡ agent_fault.File OutOfMemory };

    fn from(_: AllocError) -> AgentFault {
        AgentFault::File(FileTapeFault::OutOfMemory)
    }
}

impl From<FileTapeFault> for AgentFault {
    ghost from_gives = { λ e f. f ≡ agent_fault.File e };

    fn from(e: FileTapeFault) -> AgentFault {
        AgentFault::File(e)
    }
}

impl From<TalkFault> for AgentFault {
    ghost from_gives = { λ e f. f ≡ agent_fault.Dialogue e };

    fn from(e: TalkFault) -> AgentFault {
        AgentFault::Dialogue(e)
    }
}
