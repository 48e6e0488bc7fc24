//! A command line as a value.
ghost use Rattle.std.specs.Prelude.{◌≡◌, ◌⊎◌, String, string_bytes};
ghost use Rattle.clap.specs.Words.{kind_of};
ghost use Rattle.command_line.specs.Words.{ComesTo, SaysBad};
ghost use Rattle.command_line.specs.declared.command_line.LineFault.TheVariants.{OutOfMemory as out_of_memory};

use crate::lines::Line;
use crate::refusal::refusal_text;
use clap::error::{Error as ClapError, ErrorKind};
use std::alloc::{AllocError, Global};
use thiserror::Error;

/// What is asked for: a command, and whether more is to be said of its fault than one line.
#[derive(Debug, Drop, PartialEq, Eq)]
pub struct Asked {
    pub line: Line,
    pub explain: bool,
}

/// Why the words are no command, with the text that the user is shown. Each text ends with an LF.
#[derive(Debug, Drop, PartialEq, Eq, Error)]
pub enum LineFault {
    /// Help or the version was asked for.
    #[error("{0}")]
    Help(String),
    /// The words are no command.
    #[error("{0}")]
    BadCommand(String),
    /// Memory was refused.
    #[error("OutOfMemory")]
    OutOfMemory,
}

impl LineFault {
    /// A bad command line with this text, or `OutOfMemory` where memory is refused.
    pub fn bad_command(alloc: Global, text: &str) -> LineFault
        ensures { SaysBad text.now result }
    {
        match String::from_str(alloc, text) {
            Ok(text) => LineFault::BadCommand(text),
            Err(_) => LineFault::OutOfMemory,
        }
    }
}

impl From<AllocError> for LineFault {
    ghost from_gives = { λ _ e. e ≡ out_of_memory };

    fn from(_e: AllocError) -> LineFault {
        LineFault::OutOfMemory
    }
}

/// What the refusal of these words by `clap` comes to.
pub(crate) fn refused(alloc: Global, words: &[String], error: &ClapError) -> LineFault
    ensures { (result ≡ LineFault.OutOfMemory) ⊎ ComesTo (kind_of error.now) result }
{
    let Ok(text) = refusal_text(alloc, words, error) else {
        return LineFault::OutOfMemory;
    };
    match error.kind() {
        ErrorKind::DisplayHelp | ErrorKind::DisplayVersion => LineFault::Help(text),
        ErrorKind::OutOfMemory => LineFault::OutOfMemory,
        _ => LineFault::BadCommand(text),
    }
}
