//! A tape that tears where it is told to.
ghost use Rattle.std.specs.Prelude.{◌≡◌, ◌≤◌, [], None, IfOk};
ghost use Rattle.std.specs.Option.{ForSome};

use agent::{MemTape, RECORD_SIZE, Scripted, Tape, TapeError};
use std::alloc::Global;
use text_io::OutOfMemory;

/// A tape in memory, of which the next write fails where it was armed. It takes no memory after it
/// was made.
#[derive(Debug, Drop)]
pub struct SimTape {
    tape: MemTape,
    armed: Option<u8>,
    failures: u64,
    ghost in_record: { ForSome armed (λ n. n ≤ 10) },
}

impl SimTape {
    ghost use Rattle.executor.specs.SimTape.{sim_state, sim_armed};

    /// An empty tape with room for so many bytes, and nothing armed.
    pub fn new(alloc: Global, room: u32) -> Result<SimTape, OutOfMemory>
        ensures state { IfOk result
            (λ t. sim_state t ≡ record { contents = []; room = room; failures = 0 }) }
        ensures armed { IfOk result (λ t. sim_armed t ≡ None) }
    {
        Ok(SimTape {
            tape: MemTape::new(alloc, room)?,
            armed: None,
            failures: 0,
        })
    }

    /// After how many bytes its next write fails, if it is armed.
    pub fn armed(&self) -> Option<u8>
        ensures { result ≡ sim_armed self.now }
    {
        self.armed
    }
}

impl Tape for SimTape {
    ghost use Rattle.executor.specs.SimTape.{sim_state, sim_reads, sim_writes};
    ghost use Rattle.executor.specs.SimTape.{sim_within, sim_is_read, sim_is_write};

    ghost state = { sim_state };

    ghost may_read = { sim_reads };

    ghost may_write = { sim_writes };

    fn room(&self) -> u32 {
        self.tape.room()
    }

    fn len(&self) -> u32 {
        self.tape.len()
    }

    fn read_at(&mut self, at: u32, out: &mut [u8; RECORD_SIZE]) -> Result<(), TapeError> {
        self.tape.read_at(at, out)
    }

    fn write_at(&mut self, at: u32, bytes: &[u8; RECORD_SIZE]) -> Result<(), TapeError> {
        let Some(stored) = self.armed else {
            return self.tape.write_at(at, bytes);
        };
        self.armed = None;
        self.failures = self.failures.saturating_add(1);
        self.tape.write_at(at, bytes)?;
        self.tape.truncate(at + u32::from(stored));
        Err(TapeError)
    }

    fn failures(&self) -> u64 {
        self.failures
    }

    ghost within = { sim_within };

    ghost reads = { sim_is_read };

    ghost writes = { sim_is_write };
}

impl Scripted for SimTape {
    ghost use Rattle.executor.specs.SimTape.{sim_armed, sim_reads_armed, sim_writes_armed};

    ghost armed = { sim_armed };

    fn arm(&mut self, tear: Option<u8>) {
        self.armed = tear;
    }

    ghost reads_armed = { sim_reads_armed };

    ghost writes_armed = { sim_writes_armed };
}
