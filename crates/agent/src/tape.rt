//! The tape of an agent's progress: a write-ahead log of records of ten bytes.
ghost use Rattle.std.specs.Prelude.{◌≡◌, ◌≤◌, ℕ, Bool, List, Option};
ghost use Rattle.std.specs.Prelude.{Some, true, is_ok, length, IfSome};
ghost use Rattle.text_io.specs.FaultWords.{failed, words_of, words_text};
ghost use Rattle.text_io.specs.declared.failure.Failure.TheVariants as failure;
ghost use Rattle.model.specs.History.{record_length};
ghost use Rattle.agent.specs.Tape.{TapeState, MayRead, MayWrite, IsRead, IsWrite, IsTorn};

use std::fmt;
use text_io::{Failure, FaultWords};
use thiserror::Error;

/// How many bytes a record of a tape has.
pub const RECORD_LENGTH: u32 = 10;

/// The same, for arrays.
pub const RECORD_SIZE: usize = RECORD_LENGTH as usize;

/// A read or a write of a tape failed.
#[derive(Clone, Copy, Debug, PartialEq, Eq, Error)]
pub struct TapeError;

impl TapeError {
    /// The words in which it is told.
    pub fn words(self) -> FaultWords
        ensures { words_of result ≡ failed failure.TapeFailed }
    {
        Failure::TapeFailed.words()
    }
}

impl fmt::Display for TapeError {
    ghost output = { λ _. Some (words_text (failed failure.TapeFailed)) };

    fn fmt<W: fmt::Write>(&self, f: &mut fmt::Formatter<W>) -> fmt::Result {
        self.words().fmt(f)
    }
}

/// Bytes that outlive a restart, with room for so many.
pub trait Tape {
    ghost state: { Self → TapeState };

    /// The outcomes of a read: whether it succeeds, the bytes that it gives, and the tape after it.
    ghost may_read: { Self → ℕ → Bool → List ℕ → Self → Type 0 };

    /// The outcomes of a write: whether it succeeds, and the tape after it.
    ghost may_write: { Self → ℕ → List ℕ → Bool → Self → Type 0 };

    /// How many bytes the tape has room for.
    fn room(&self) -> u32
        ensures { result ≡ (state self.now).room };

    /// How many bytes it has.
    fn len(&self) -> u32
        ensures { result ≡ length (state self.now).contents };

    /// Reads the record at a place.
    fn read_at(&mut self, at: u32, out: &mut [u8; RECORD_SIZE]) -> Result<(), TapeError>
        requires { MayRead (state self.old) at }
        ensures { may_read self.old at (is_ok result) out.new self.new };

    /// Writes a record behind the whole records, over what stands there.
    fn write_at(&mut self, at: u32, bytes: &[u8; RECORD_SIZE]) -> Result<(), TapeError>
        requires { MayWrite (state self.old) at }
        ensures { may_write self.old at bytes.now (is_ok result) self.new };

    /// How many reads and writes failed; it stays at the greatest value.
    fn failures(&self) -> u64
        ensures { result ≡ (state self.now).failures };

    ghost within: { (t : Self) → length (state t).contents ≤ (state t).room };

    ghost reads: { (t u : Self) (at : ℕ) (succeeds : Bool) (bytes : List ℕ) → MayRead (state t) at
        → may_read t at succeeds bytes u
        → IsRead (state t) (state u) at succeeds bytes };

    ghost writes: { (t u : Self) (at : ℕ) (bytes : List ℕ) (succeeds : Bool) → MayWrite (state t) at
        → length bytes ≡ record_length
        → may_write t at bytes succeeds u → IsWrite (state t) (state u) at bytes succeeds };
}

/// A tape that is told when its next write shall fail, and how many bytes of it are stored.
pub trait Scripted: Tape {
    ghost armed: { Self → Option ℕ };

    /// The next write stores so many bytes of its record and fails; or it succeeds. A read
    /// succeeds, and leaves what is armed.
    fn arm(&mut self, tear: Option<u8>)
        requires { IfSome tear (λ n. n ≤ record_length) }
        ensures armed { armed self.new ≡ tear }
        ensures state { Self.state self.new ≡ Self.state self.old };

    ghost reads_armed: { (t u : Self) (at : ℕ) (succeeds : Bool) (bytes : List ℕ)
        → MayRead (Self.state t) at → Self.may_read t at succeeds bytes u
        → (succeeds ≡ true) × (armed u ≡ armed t) };

    ghost writes_armed: { (t u : Self) (at : ℕ) (bytes : List ℕ) (succeeds : Bool)
        → MayWrite (Self.state t) at → length bytes ≡ record_length
        → Self.may_write t at bytes succeeds u
        → IsTorn (armed t) (armed u) (Self.state t) (Self.state u) at bytes succeeds };
}
