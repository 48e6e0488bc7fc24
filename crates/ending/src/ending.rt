//! How a command ends.
ghost use Rattle.std.specs.Prelude.{◌≡◌, is_ok};
ghost use Rattle.text_io.specs.FaultWords.{words_of};
ghost use Rattle.ending.specs.Ending.{Concludes, answered_with, end_of, gave_up, rejected};
ghost use Rattle.ending.specs.Finishing.{FinishesWriting};

use crate::Status;
use crate::fault_line::report;
use std::io::Write;
use text_io::{Counted, FaultWords, WriteFault};

/// How a command ended: of this the program tells an exit status, and one line where the output
/// doesn't name the fault.
#[derive(Clone, Copy, Debug)]
pub struct Ending {
    pub status: Status,
    /// The fault that the line tells.
    pub told: Option<FaultWords>,
    /// The fault that is there to be explained.
    pub explained: Option<FaultWords>,
    /// One more fault, which says why. No answer goes by it.
    pub cause: Option<FaultWords>,
}

impl Ending {
    /// The output has the answer, which goes with this status.
    pub fn answered_with(status: Status) -> Ending
        ensures { end_of result ≡ answered_with status }
    {
        Ending {
            status,
            told: None,
            explained: None,
            cause: None,
        }
    }

    /// The output has the verdict that a plan is rejected, for this fault.
    pub fn rejected(words: FaultWords) -> Ending
        ensures { end_of result ≡ rejected (words_of words) }
    {
        Ending {
            status: Status::Fault,
            told: None,
            explained: Some(words),
            cause: None,
        }
    }

    /// The command gave up for this fault, which the output doesn't name.
    pub fn gave_up(words: FaultWords) -> Ending
        ensures { end_of result ≡ gave_up (words_of words) }
    {
        Ending {
            status: Status::of_fault(&words),
            told: Some(words),
            explained: Some(words),
            cause: None,
        }
    }

    /// The same ending, with a fault that says why, if there is one.
    pub fn because(self, cause: Option<FaultWords>) -> Ending
        ensures { end_of result ≡ end_of self }
    {
        let mut ending = self;
        ending.cause = cause;
        ending
    }
}

/// Flushes the output after a write. Where neither failed, the ending is that of success.
pub fn finish<W: Write>(
    written: Result<(), WriteFault>,
    success: Ending,
    out: &mut Counted<W>,
) -> Ending
    ensures { FinishesWriting W.contents (is_ok written) (end_of success) out.old out.new
        (end_of result) }
{
    if written.is_ok() && out.flush().is_ok() {
        return success;
    }
    Ending::gave_up(WriteFault::WriteFailed.words())
}

/// Tells how a command ended. The answer is the exit status, which stays where `err` fails.
pub fn conclude<E: Write>(ending: Ending, err: &mut Counted<E>) -> u8
    ensures { Concludes E.contents err.old err.new result (end_of ending) }
{
    if let Some(words) = ending.told {
        report(err, words);
    }
    ending.status.code()
}
