//! The bytes of a reader, a piece at a time.
ghost use Rattle.std.specs.Prelude.{◌≡◌, ◌+◌, ◌<◌, ◌≤◌, [], ◌∷◌, length};
ghost use Rattle.std.specs.Prelude.{take, drop, Some, is_some, true, false};
ghost use Rattle.std.specs.Prelude.{MatchOption, MatchResult, OnOk, is_err, if◌then◌else◌};
ghost use Rattle.std.specs.Io.{ReadsAtMost};
ghost use Rattle.std.specs.Io.KnownBytes.{ReadConsumes};
ghost use Rattle.text_io.specs.Counted.{greatest, counted_inner, calls_of, failures_of, one_more};

use crate::Counted;
use std::io::Read;

/// Why no more bytes come.
#[derive(Clone, Copy, Debug, PartialEq, Eq)]
pub enum Stop {
    /// The reader gave all its bytes.
    End,
    /// The reader failed. It is not called again.
    Failure,
}

/// Who reads short lines reads so many bytes ahead.
pub const PIECE: usize = 4_096;

/// Who reads long lines reads so many bytes ahead.
pub const LARGE_PIECE: usize = 65_536;

/// The bytes of a reader, of which it reads so many ahead at the most.
pub struct Source<'a, R, const AHEAD: usize> {
    reader: &'a mut Counted<R>,
    piece: [u8; AHEAD],
    start: usize,
    end: usize,
    stop: Option<Stop>,
    ghost reads_some: { 0 < AHEAD },
    ghost few: { AHEAD ≤ 65536 },
    ghost ordered: { start ≤ end },
    ghost in_piece: { end ≤ AHEAD },
    ghost stops_empty: { is_some stop ≡ true → end ≤ start },
}

impl<R, const AHEAD: usize> Drop for Source<'_, R, AHEAD> {
    fn drop(self)
        ensures { self.exit.0.now ≡ self.entry.reader.now }
    {
        let Source {
            reader: _,
            piece: _,
            start: _,
            end: _,
            stop: _,
        } = self;
    }
}

impl<'a, R: Read, const AHEAD: usize> Source<'a, R, AHEAD> {
    ghost use Rattle.text_io.specs.Source.{at_hand, source_reader, is_stopped};
    ghost use Rattle.text_io.specs.Source.{GoesOn, Takes, StopsBy};
    ghost use Rattle.text_io.specs.Lines.{HasTaken};

    /// Nothing is read yet.
    pub fn new(reader: &'a mut Counted<R>) -> Source<'a, R, AHEAD>
        requires some { 0 < AHEAD }
        requires few { AHEAD ≤ 65536 }
        ensures same_reader { result.reader.ghost_name ≡ reader.entry.ghost_name }
        ensures reader { source_reader result ≡ reader.old }
        ensures at_hand { at_hand result ≡ [] }
        ensures stop { is_stopped result ≡ false }
        ensures none_taken { HasTaken R.remaining reader.old result [] }
    {
        Source {
            reader,
            piece: [0; AHEAD],
            start: 0,
            end: 0,
            stop: None,
        }
    }

    /// Reads where no byte is at hand, and says why there is still none.
    pub fn fill(&mut self) -> Option<Stop>
        ensures takes { Takes R.remaining self.old self.new [] }
        ensures cases { MatchOption result ((0 < length (at_hand self.new)) × GoesOn self.new)
            (StopsBy R.remaining self.old self.new) }
    {
        if self.start < self.end {
            return None;
        }
        if self.stop.is_some() {
            return self.stop;
        }
        self.start = 0;
        self.end = 0;
        match self.reader.read(&mut self.piece) {
            Ok(0) => {
                self.stop = Some(Stop::End);
                Some(Stop::End)
            }
            Ok(n) => {
                self.end = n;
                None
            }
            Err(_) => {
                self.stop = Some(Stop::Failure);
                Some(Stop::Failure)
            }
        }
    }

    /// The bytes that were read and not yet taken.
    pub fn at_hand(&self) -> &[u8]
        ensures { result.now ≡ at_hand self.now }
    {
        let piece = &self.piece[..];
        &piece[self.start..self.end]
    }

    /// Takes bytes that are at hand.
    pub fn take(&mut self, n: usize)
        requires { n ≤ length (at_hand self.old) }
        ensures takes { Takes R.remaining self.old self.new (take n (at_hand self.old)) }
        ensures rest { at_hand self.new ≡ drop n (at_hand self.old) }
        ensures stop { is_stopped self.new ≡ is_stopped self.old }
    {
        self.start += n;
    }

    /// Takes the next byte, or says why there is none.
    pub fn next_byte(&mut self) -> Result<u8, Stop>
        ensures { MatchResult result (λ b. Takes R.remaining self.old self.new (b ∷ [])
            × GoesOn self.new) (StopsBy R.remaining self.old self.new) }
    {
        match self.fill() {
            None => {
                let byte = self.at_hand()[0];
                self.take(1);
                Ok(byte)
            }
            Some(stop) => Err(stop),
        }
    }
}
