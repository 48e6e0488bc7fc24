//! Files that are opened to be read.
ghost use Rattle.std.specs.Prelude.{IfOk, MatchResult};
ghost use Rattle.agent_commands.specs.FileDeeds.{FileDeed, IsUnopened};
ghost use Rattle.agent_commands.specs.FileDeeds.FileDeed.{opens_file};

use crate::agent_fault::AgentFault;
use std::fs::{self, File};
use std::io;
use std::io::{ErrorKind, Read};
use std::rt::HostRuntime;

/// Files that may be opened to be read, and to which nothing else may be done. Which file a name
/// stands for, no contract says.
pub trait ReadFiles {
    /// A file that is read.
    type Reader: Read + Drop;

    /// What was done to files. A caller learns of it from these calls alone: so of a file that is
    /// said to be opened, nothing was read before.
    ghost was_done: { FileDeed → Type 0 };

    /// Opens a file, a pipe or a device.
    fn open_input(&self, path: &str) -> io::Result<Self::Reader>
        ensures { IfOk result (λ file. was_done (opens_file (Self.Reader.remaining file))) };

    /// Opens a file, if it is one like others. To open a pipe would wait for who writes it.
    fn open_to_read(&self, path: &str) -> Result<Self::Reader, AgentFault>
        ensures { MatchResult result
            (λ file. was_done (opens_file (Self.Reader.remaining file))) (IsUnopened was_done) };
}

/// The files of the system.
impl ReadFiles for HostRuntime {
    type Reader = File;

    ghost was_done = { λ _. Unit {0} };

    fn open_input(&self, path: &str) -> io::Result<File> {
        fs::open(self, path)
    }

    fn open_to_read(&self, path: &str) -> Result<File, AgentFault> {
        match fs::metadata(self, path) {
            Ok(metadata) if metadata.is_file() => {}
            Ok(_) => return Err(AgentFault::OpenFailed),
            Err(error) => return Err(not_opened(error.kind())),
        }
        match fs::open(self, path) {
            Ok(file) => Ok(file),
            Err(error) => Err(not_opened(error.kind())),
        }
    }
}

/// Why a file was not opened that has to be there.
pub(crate) fn not_opened(kind: ErrorKind) -> AgentFault
    ensures { IsUnopened (λ _. Unit {0}) result }
{
    match kind {
        ErrorKind::NotFound => AgentFault::NoTape,
        _ => AgentFault::OpenFailed,
    }
}
