//! A tape in a file to which nothing is written unless a guard lets it be, and of whose records the
//! guard takes note.
ghost use Rattle.std.specs.Prelude.{◌≡◌, IsTrue};

use crate::file_tape::FileTape;
use crate::sync_file::SyncFile;
use agent::{RECORD_SIZE, Tape, TapeError};
use std::io::{Seek, Write};

/// What has to hold before each write of a tape, and what is noted behind it, elsewhere. What it
/// looks at, and where it notes that, each guard says by itself.
pub trait Guard {
    /// It held when it was asked.
    ghost has_allowed: { Self → Type 0 };

    /// The second is the first, which has taken note of a record.
    ghost has_noted: { Self → Self → Type 0 };

    /// Whether it holds now.
    fn holds(&self) -> bool
        ensures { IsTrue result → has_allowed self.now };

    /// Takes note that a record was stored, and answers whether that was done.
    fn take_note(&mut self) -> bool
        ensures { IsTrue result → has_noted self.old self.new };
}

/// A tape in a file. A record that is to be written while its guard doesn't hold is not, and the
/// write has failed. It has failed too where the guard can't take note of a record, which is stored
/// then.
#[derive(Drop)]
pub struct GuardedTape<F, G> {
    tape: FileTape<F>,
    guard: G,
}

impl<F, G> GuardedTape<F, G> {
    pub fn new(tape: FileTape<F>, guard: G) -> GuardedTape<F, G>
        ensures tape { result.tape ≡ tape }
        ensures guard { result.guard ≡ guard }
    {
        GuardedTape { tape, guard }
    }
}

impl<F: Write + Seek + SyncFile, G: Guard> Tape for GuardedTape<F, G> {
    ghost use Rattle.robot.specs.GuardedTape.{guarded_state, IsGuardedRead, IsGuardedWrite};
    ghost use Rattle.robot.specs.GuardedTape.{guarded_within, guarded_is_read, guarded_is_write};

    ghost state = { guarded_state };

    ghost may_read = { IsGuardedRead };

    ghost may_write = { IsGuardedWrite F.stream_position F.stream_bytes F.contents F.is_synced
        G.has_allowed G.has_noted };

    fn room(&self) -> u32 {
        self.tape.room()
    }

    fn len(&self) -> u32 {
        self.tape.len()
    }

    fn read_at(&mut self, at: u32, out: &mut [u8; RECORD_SIZE]) -> Result<(), TapeError> {
        self.tape.read_at(at, out)
    }

    fn write_at(&mut self, at: u32, bytes: &[u8; RECORD_SIZE]) -> Result<(), TapeError> {
        if !self.guard.holds() {
            self.tape.count_failure();
            return Err(TapeError);
        }
        self.tape.write_at(at, bytes)?;
        if !self.guard.take_note() {
            self.tape.count_failure();
            return Err(TapeError);
        }
        Ok(())
    }

    fn failures(&self) -> u64 {
        self.tape.failures()
    }

    ghost within = { guarded_within };

    ghost reads = { guarded_is_read };

    ghost writes = { guarded_is_write F.stream_position F.stream_bytes F.contents F.is_synced
        G.has_allowed G.has_noted };
}
