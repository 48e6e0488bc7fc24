//! What fails that is no text.
ghost use Rattle.std.specs.Prelude.{◌≡◌};
ghost use Rattle.text_io.specs.FaultName.{fault_name};
ghost use Rattle.text_io.specs.FaultWords.{failed, failure_name, words_of};

use crate::{FaultName, FaultWords, Origin};

/// What may fail beside a text: a reader, a writer, memory, a file, or the tape of an agent. Each
/// format's faults have some of these among them, by the same names.
#[derive(Clone, Copy, Debug, PartialEq, Eq)]
pub enum Failure {
    ReadFailed,
    WriteFailed,
    OutOfMemory,
    OpenFailed,
    TapeFailed,
    TapeInUse,
    StoreFailed,
}

impl Failure {
    /// The words in which it is told.
    pub fn words(self) -> FaultWords
        ensures { words_of result ≡ failed self }
    {
        FaultWords::failed(self.name()).of(self.origin())
    }

    /// What has it, where that is known from the name alone.
    fn origin(self) -> Origin {
        match self {
            Failure::WriteFailed => Origin::Output,
            Failure::TapeFailed | Failure::TapeInUse | Failure::StoreFailed => Origin::Tape,
            Failure::ReadFailed | Failure::OutOfMemory | Failure::OpenFailed => Origin::Command,
        }
    }

    fn name(self) -> FaultName
        ensures { fault_name result ≡ failure_name self }
    {
        match self {
            Failure::ReadFailed => FaultName::ReadFailed,
            Failure::WriteFailed => FaultName::WriteFailed,
            Failure::OutOfMemory => FaultName::OutOfMemory,
            Failure::OpenFailed => FaultName::OpenFailed,
            Failure::TapeFailed => FaultName::TapeFailed,
            Failure::TapeInUse => FaultName::TapeInUse,
            Failure::StoreFailed => FaultName::StoreFailed,
        }
    }
}
