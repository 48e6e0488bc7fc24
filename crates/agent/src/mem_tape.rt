//! A tape in memory.
ghost use Rattle.std.specs.Prelude.{◌≡◌, ◌<◌, ◌≤◌, ◌^◌, ◌+◌, ◌++◌, ◌↔◌};
ghost use Rattle.std.specs.Prelude.{[], length, take, IfOk, IsErrOf, Some};
ghost use Rattle.agent.specs.declared.mem_tape.TapeMakeFault.TheVariants.{OutOfMemory as out_of_memory};
ghost use Rattle.text_io.specs.FaultWords.{words_of, words_text};
ghost use Rattle.agent.specs.FaultWords.{tape_make_fault_words};

use crate::tape::{RECORD_SIZE, Tape, TapeError};
use std::alloc::Global;
use std::fmt;
use text_io::{Failure, FaultName, FaultWords, OutOfMemory};
use thiserror::Error;

/// Why no tape was made.
#[derive(Clone, Copy, Debug, PartialEq, Eq, Error)]
pub enum TapeMakeFault {
    /// There are more bytes than room.
    TooLong,
    OutOfMemory,
}

impl TapeMakeFault {
    /// The words in which it is told.
    pub fn words(self) -> FaultWords
        ensures { words_of result ≡ tape_make_fault_words self }
    {
        match self {
            TapeMakeFault::TooLong => FaultWords::new(FaultName::TooLong, &[]),
            TapeMakeFault::OutOfMemory => Failure::OutOfMemory.words(),
        }
    }
}

impl fmt::Display for TapeMakeFault {
    ghost output = { λ fault. Some (words_text (tape_make_fault_words fault)) };

    fn fmt<W: fmt::Write>(&self, f: &mut fmt::Formatter<W>) -> fmt::Result {
        self.words().fmt(f)
    }
}

impl From<OutOfMemory> for TapeMakeFault {
    ghost from_gives = { λ _ e. e ≡ out_of_memory };

    fn from(_: OutOfMemory) -> TapeMakeFault {
        TapeMakeFault::OutOfMemory
    }
}

/// A tape in memory, which takes none after it was made. Its reads and writes succeed.
#[derive(Debug, Drop)]
pub struct MemTape {
    bytes: Vec<u8>,
    len: usize,
    ghost in_room: { len ≤ length bytes.items },
    ghost limit: { length bytes.items < 2 ^ 32 },
}

impl MemTape {
    ghost use Rattle.agent.specs.MemTape.{mem_state};

    /// An empty tape with room for so many bytes.
    pub fn new(alloc: Global, room: u32) -> Result<MemTape, OutOfMemory>
        ensures { IfOk result
            (λ t. mem_state t ≡ record { contents = []; room = room; failures = 0 }) }
    {
        Ok(MemTape {
            bytes: vec![in alloc; 0u8; room as usize]?,
            len: 0,
        })
    }

    /// A tape with these bytes, and room for so many.
    pub fn from_bytes(alloc: Global, bytes: &[u8], room: u32) -> Result<MemTape, TapeMakeFault>
        ensures ok { IfOk result
            (λ t. mem_state t ≡ record { contents = bytes.now; room = room; failures = 0 }) }
        ensures too_long { IsErrOf result TapeMakeFault.TooLong ↔ (room < length bytes.now) }
    {
        if bytes.len() > room as usize {
            return Err(TapeMakeFault::TooLong);
        }
        let mut tape = MemTape::new(alloc, room)?;
        put(&mut tape.bytes, 0, bytes);
        tape.len = bytes.len();
        Ok(tape)
    }

    /// Keeps the first bytes alone.
    pub fn truncate(&mut self, len: u32)
        ensures { mem_state self.new ≡ record (mem_state self.old)
            { contents = take len (mem_state self.old).contents } }
    {
        self.len = self.len.min(len as usize);
    }

    /// The bytes that it has.
    pub fn bytes(&self) -> &[u8]
        ensures { result.now ≡ (mem_state self.now).contents }
    {
        &self.bytes[..self.len]
    }
}

/// Puts bytes at a place.
fn put(all: &mut [u8], at: usize, bytes: &[u8])
    requires { at + length bytes.now ≤ length all.old }
    ensures length { length all.new ≡ length all.old }
    ensures bytes { take (at + length bytes.now) all.new ≡ take at all.old ++ bytes.now }
{
    all[at..at + bytes.len()].copy_from_slice(bytes);
}

/// Puts a record at a place, byte by byte: a copy would wait for bytes that were only just made.
#[inline(always)]
fn put_record(all: &mut [u8], at: usize, record: &[u8; RECORD_SIZE])
    requires { at + 10 ≤ length all.old }
    ensures length { length all.new ≡ length all.old }
    ensures bytes { take (at + 10) all.new ≡ take at all.old ++ record.now }
{
    for i in 0..RECORD_SIZE {
        all[at + i] = record[i];
    }
}

impl Tape for MemTape {
    ghost use Rattle.agent.specs.MemTape.{mem_state, mem_reads, mem_writes};
    ghost use Rattle.agent.specs.MemTape.{mem_within, mem_is_read, mem_is_write};

    ghost state = { mem_state };

    ghost may_read = { mem_reads };

    ghost may_write = { mem_writes };

    fn room(&self) -> u32 {
        self.bytes.len() as u32
    }

    fn len(&self) -> u32 {
        self.len as u32
    }

    fn read_at(&mut self, at: u32, out: &mut [u8; RECORD_SIZE]) -> Result<(), TapeError> {
        let at = at as usize;
        out.copy_from_slice(&self.bytes()[at..at + RECORD_SIZE]);
        Ok(())
    }

    fn write_at(&mut self, at: u32, bytes: &[u8; RECORD_SIZE]) -> Result<(), TapeError> {
        put_record(&mut self.bytes, at as usize, bytes);
        self.len = at as usize + RECORD_SIZE;
        Ok(())
    }

    fn failures(&self) -> u64 {
        0
    }

    ghost within = { mem_within };

    ghost reads = { mem_is_read };

    ghost writes = { mem_is_write };
}
