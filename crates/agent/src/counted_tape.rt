//! The tape of an agent in a run that is played.
ghost use Rattle.std.specs.Prelude.{◌≡◌, ◌≤◌, ◌<◌, ◌+◌, ◌*◌, ◌/◌, ◌↔◌, []};
ghost use Rattle.std.specs.Prelude.{◌++◌, None, Some, length, take, slice_index, IsTrue, IfSome};
ghost use Rattle.std.specs.Option.{ForSome};
ghost use Rattle.model.specs.History.{record_length};
ghost use Rattle.agent.specs.Records.{due_record};
ghost use Rattle.agent.specs.Tape.{MayWrite, HasFailed};

use crate::record::{due_record, is_due};
use crate::tape::{RECORD_LENGTH, RECORD_SIZE, Tape, TapeError};

/// A tape that counts the records of one agent, of which the next write fails where it was armed.
///
/// Each record is determined by its number, so none is kept, and the tape takes no memory. It is
/// for one who plays the whole run, as a runner does: any other bytes than those of the record that
/// is due are not stored, and their write fails.
#[derive(Debug, Drop)]
pub struct CountedTape {
    /// The plan and the agent whose records are counted.
    plan: u32,
    agent: u16,
    /// How many whole records there are, and how many bytes of the next one.
    records: u32,
    torn: u8,
    room: u32,
    armed: Option<u8>,
    failures: u64,
    ghost part: { torn < 10 },
    ghost in_room: { 10 * records + torn ≤ room },
    ghost limit: { room ≤ 20 * 65535 },
    ghost in_record: { ForSome armed (λ n. n ≤ 10) },
}

impl CountedTape {
    ghost use Rattle.agent.specs.CountedTape.{counted_state, counted_armed};
    ghost use Rattle.agent.specs.CountedTape.{CountsFor, IsCountedWrite};

    /// An empty tape with room for two records for each of so many moves, and nothing armed.
    pub fn new(plan: u32, agent: u16, moves: u32) -> CountedTape
        requires { moves ≤ 65535 }
        ensures state { counted_state result
            ≡ record { contents = []; room = 2 * record_length * moves; failures = 0 } }
        ensures armed { counted_armed result ≡ None }
        ensures whose { CountsFor plan agent result }
    {
        CountedTape {
            plan,
            agent,
            records: 0,
            torn: 0,
            room: 2 * RECORD_LENGTH * moves,
            armed: None,
            failures: 0,
        }
    }

    /// After how many bytes its next write fails, if it is armed.
    pub fn armed(&self) -> Option<u8>
        ensures { result ≡ counted_armed self.now }
    {
        self.armed
    }

    /// The next write stores so many bytes of its record and fails; or it succeeds.
    pub(crate) fn arm(&mut self, tear: Option<u8>)
        requires { IfSome tear (λ n. n ≤ record_length) }
        ensures armed { counted_armed self.new ≡ tear }
        ensures state { counted_state self.new ≡ counted_state self.old }
        ensures whose { CountsFor self.old.plan self.old.agent self.new }
    {
        self.armed = tear;
    }

    /// The byte at a place.
    fn byte(&self, at: u32) -> u8
        requires { at < length (counted_state self.now).contents }
        ensures { result ≡ slice_index (counted_state self.now).contents at }
    {
        due_record(self.plan, self.agent, at / RECORD_LENGTH)[(at % RECORD_LENGTH) as usize]
    }

    /// Whether bytes are the record that is due, at its place.
    #[inline(always)]
    fn is_due(&self, at: u32, bytes: &[u8; RECORD_SIZE]) -> bool
        requires { at + 10 ≤ self.now.room }
        ensures { IsTrue result
            ↔ ((at ≡ 10 * self.now.records)
            × (bytes.now ≡ due_record self.now.plan self.now.agent self.now.records)) }
    {
        at == RECORD_LENGTH * self.records && is_due(bytes, self.plan, self.agent, self.records)
    }

    /// Fails a write of other bytes than are due: what it would have stood over is gone.
    #[inline(never)]
    fn refuse(&mut self, at: u32)
        requires { MayWrite (counted_state self.old) at }
        ensures contents { (counted_state self.new).contents
            ≡ take at (counted_state self.old).contents }
        ensures room { (counted_state self.new).room ≡ (counted_state self.old).room }
        ensures failed { HasFailed (counted_state self.old).failures
            (counted_state self.new).failures }
        ensures whose { CountsFor self.old.plan self.old.agent self.new }
    {
        self.failures = self.failures.saturating_add(1);
        self.records = at / RECORD_LENGTH;
        self.torn = (at % RECORD_LENGTH) as u8;
    }

    /// Fails the write of the record that is due, of which so many bytes are stored.
    #[inline(never)]
    fn tear(&mut self, stored: u8)
        requires most { stored ≤ 10 }
        requires room { 10 * self.old.records + 10 ≤ self.old.room }
        ensures contents { (counted_state self.new).contents ≡ take (10 * self.old.records)
            (counted_state self.old).contents
            ++ take stored (due_record self.old.plan self.old.agent self.old.records) }
        ensures armed { counted_armed self.new ≡ None }
        ensures room { (counted_state self.new).room ≡ (counted_state self.old).room }
        ensures failed { HasFailed (counted_state self.old).failures
            (counted_state self.new).failures }
        ensures whose { CountsFor self.old.plan self.old.agent self.new }
    {
        self.torn = stored % RECORD_LENGTH as u8;
        self.records += u32::from(stored) / RECORD_LENGTH;
        self.armed = None;
        self.failures = self.failures.saturating_add(1);
    }
}

impl Tape for CountedTape {
    ghost use Rattle.agent.specs.CountedTape.{counted_state, counted_reads, counted_writes};
    ghost use Rattle.agent.specs.CountedTape.{counted_within, counted_is_read, counted_is_write};

    ghost state = { counted_state };

    ghost may_read = { counted_reads };

    ghost may_write = { counted_writes };

    fn room(&self) -> u32 {
        self.room
    }

    fn len(&self) -> u32 {
        RECORD_LENGTH * self.records + u32::from(self.torn)
    }

    fn read_at(&mut self, at: u32, out: &mut [u8; RECORD_SIZE]) -> Result<(), TapeError> {
        for i in 0..RECORD_SIZE {
            out[i] = self.byte(at + i as u32);
        }
        Ok(())
    }

    #[inline(always)]
    fn write_at(&mut self, at: u32, bytes: &[u8; RECORD_SIZE]) -> Result<(), TapeError> {
        if !self.is_due(at, bytes) {
            self.refuse(at);
            return Err(TapeError);
        }
        match self.armed {
            Some(stored) => {
                self.tear(stored);
                Err(TapeError)
            }
            None => {
                self.torn = 0;
                self.records += 1;
                Ok(())
            }
        }
    }

    fn failures(&self) -> u64 {
        self.failures
    }

    ghost within = { counted_within };

    ghost reads = { counted_is_read };

    ghost writes = { counted_is_write };
}
