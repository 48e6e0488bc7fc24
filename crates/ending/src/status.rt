//! How a command ends: its exit status.
ghost use Rattle.std.specs.Prelude.{◌≡◌};

use text_io::FaultWords;

/// The exit status of the program.
#[derive(Clone, Copy, Debug, PartialEq, Eq)]
pub enum Status {
    /// The answer is yes, or the work is done.
    Done,
    /// The content of an input is faulty, or the answer is no.
    Fault,
    /// The words are no command.
    BadCommand,
    /// A file, a device or memory failed.
    Failure,
}

impl Status {
    ghost use Rattle.text_io.specs.FaultWords.{words_of};
    ghost use Rattle.ending.specs.Status.{code_of, status_of};

    /// What a fault ends with.
    pub fn of_fault(words: &FaultWords) -> Status
        ensures { result ≡ status_of (words_of words.now) }
    {
        if words.is_failure() {
            Status::Failure
        } else {
            Status::Fault
        }
    }

    /// The number that the system gets.
    pub fn code(self) -> u8
        ensures { result ≡ code_of self }
    {
        match self {
            Status::Done => 0,
            Status::Fault => 1,
            Status::BadCommand => 2,
            Status::Failure => 3,
        }
    }
}
