//! Bytes for a writer, handed on a piece at a time.
ghost use Rattle.std.specs.Prelude.{◌≡◌, ◌+◌, ◌<◌, ◌≤◌, [], ◌∷◌, ◌++◌};
ghost use Rattle.std.specs.Prelude.{decimal, length, take, Some, OnOk, OnErr, is_ok};
ghost use Rattle.text_io.specs.Counted.{counted_inner, failures_of};
ghost use Rattle.text_io.specs.FaultWords.{words_of, words_text, write_fault_words};
ghost use Rattle.text_io.specs.Text.{separated};
ghost use Rattle.text_io.specs.Writing.{WritesText};

use crate::digits::write_number;
use crate::{Counted, Failure, FaultWords};
use itoa::Buffer;
use std::fmt;
use std::io::Write;
use thiserror::Error;

/// Why a text was not written.
#[derive(Clone, Copy, Debug, PartialEq, Eq, Error)]
pub enum WriteFault {
    WriteFailed,
}

impl WriteFault {
    /// The words in which it is told.
    pub fn words(self) -> FaultWords
        ensures { words_of result ≡ write_fault_words self }
    {
        match self {
            WriteFault::WriteFailed => Failure::WriteFailed.words(),
        }
    }
}

impl fmt::Display for WriteFault {
    ghost output = { λ fault. Some (words_text (write_fault_words fault)) };

    fn fmt<W: fmt::Write>(&self, f: &mut fmt::Formatter<W>) -> fmt::Result {
        self.words().fmt(f)
    }
}

/// So many numbers are put with one test of room.
const MOST_NUMBERS: usize = 4;

/// Up to 65,536 bytes.
#[derive(Drop)]
struct Piece {
    bytes: [u8; 65536],
    len: usize,
    ghost in_piece: { len ≤ 65536 },
}

impl Piece {
    fn as_slice(&self) -> &[u8]
        ensures { result.now ≡ take self.now.len self.now.bytes }
    {
        &self.bytes[..self.len]
    }

    fn room(&self) -> usize
        ensures { result + self.now.len ≡ 65536 }
    {
        self.bytes.len() - self.len
    }

    fn clear(&mut self)
        ensures { self.new.len ≡ 0 }
    {
        self.len = 0;
    }

    /// Where the bytes are known, so is their number, and then they are copied without a call.
    #[inline(always)]
    fn append(&mut self, bytes: &[u8])
        requires { self.old.len + length bytes.now ≤ 65536 }
        ensures len { self.new.len ≡ self.old.len + length bytes.now }
        ensures bytes { take self.new.len self.new.bytes ≡ take self.old.len self.old.bytes
            ++ bytes.now }
    {
        let end = self.len + bytes.len();
        self.bytes[self.len..end].copy_from_slice(bytes);
        self.len = end;
    }

    fn push(&mut self, byte: u8)
        requires { self.old.len < 65536 }
        ensures len { self.new.len ≡ self.old.len + 1 }
        ensures bytes { take self.new.len self.new.bytes ≡ take self.old.len self.old.bytes
            ++ byte ∷ [] }
    {
        self.bytes[self.len] = byte;
        self.len += 1;
    }

    /// Writes the digits of a number where they are to stand.
    #[inline(always)]
    fn push_number(&mut self, number: u64)
        requires { self.old.len + 20 ≤ 65536 }
        ensures { take self.new.len self.new.bytes ≡ take self.old.len self.old.bytes
            ++ decimal number }
    {
        self.len = write_number(&mut self.bytes, self.len, number);
    }

    /// Writes a few numbers, with a byte before each that separates.
    #[inline(always)]
    fn push_numbers(&mut self, separator: u8, numbers: &[u64])
        requires few { length numbers.now ≤ MOST_NUMBERS }
        requires room { self.old.len + 84 ≤ 65536 }
        ensures { take self.new.len self.new.bytes ≡ take self.old.len self.old.bytes
            ++ separated separator numbers.now }
    {
        let mut at = self.len;
        for number in numbers {
            self.bytes[at] = separator;
            at = write_number(&mut self.bytes, at + 1, *number);
        }
        self.len = at;
    }
}

/// Collects bytes for a writer, and hands on a piece of 65,536 at a time, or more where more are
/// put at once.
pub struct Sink<'a, W> {
    writer: &'a mut Counted<W>,
    piece: Piece,
}

impl<W> Drop for Sink<'_, W> {
    fn drop(self)
        ensures { self.exit.0.now ≡ self.entry.writer.now }
    {
        let Sink {
            writer: _,
            piece: _,
        } = self;
    }
}

impl<'a, W: Write> Sink<'a, W> {
    ghost use Rattle.text_io.specs.Sink.{held_back, sink_writer, Puts, Breaks};

    /// Nothing is put yet.
    pub fn new(writer: &'a mut Counted<W>) -> Sink<'a, W>
        ensures same_writer { result.writer.ghost_name ≡ writer.entry.ghost_name }
        ensures writer { sink_writer result ≡ writer.old }
        ensures held_back { held_back result ≡ [] }
    {
        Sink {
            writer,
            piece: Piece {
                bytes: [0; 65536],
                len: 0,
            },
        }
    }

    /// Puts bytes behind those that were put before.
    #[inline(always)]
    pub fn put(&mut self, bytes: &[u8]) -> Result<(), WriteFault>
        ensures ok { OnOk result (Puts W.contents self.old self.new bytes.now) }
        ensures err { OnErr result (Breaks W.contents self.old self.new bytes.now) }
    {
        if self.piece.room() < bytes.len() {
            return self.put_past(bytes);
        }
        self.piece.append(bytes);
        Ok(())
    }

    /// Puts bytes for which the piece has no room: they are more than its rest.
    #[cold]
    fn put_past(&mut self, bytes: &[u8]) -> Result<(), WriteFault>
        ensures ok { OnOk result (Puts W.contents self.old self.new bytes.now) }
        ensures err { OnErr result (Breaks W.contents self.old self.new bytes.now) }
    {
        self.hand_on()?;
        if self.piece.room() < bytes.len() {
            return send(self.writer, bytes);
        }
        self.piece.append(bytes);
        Ok(())
    }

    /// Puts one byte, which takes no call to copy it.
    pub fn put_byte(&mut self, byte: u8) -> Result<(), WriteFault>
        ensures ok { OnOk result (Puts W.contents self.old self.new (byte ∷ [])) }
        ensures err { OnErr result (Breaks W.contents self.old self.new (byte ∷ [])) }
    {
        if self.piece.room() == 0 {
            return self.put_past(&[byte]);
        }
        self.piece.push(byte);
        Ok(())
    }

    /// Puts a byte that separates, and bytes behind it.
    pub fn put_after(&mut self, separator: u8, bytes: &[u8]) -> Result<(), WriteFault>
        ensures ok { OnOk result (Puts W.contents self.old self.new (separator ∷ bytes.now)) }
        ensures err { OnErr result (Breaks W.contents self.old self.new (separator ∷ bytes.now)) }
    {
        if self.piece.room() <= bytes.len() {
            return self.put_apart(separator, bytes);
        }
        self.piece.push(separator);
        self.piece.append(bytes);
        Ok(())
    }

    /// Puts the byte and then the bytes, where the piece has no room for both.
    #[cold]
    fn put_apart(&mut self, separator: u8, bytes: &[u8]) -> Result<(), WriteFault>
        ensures ok { OnOk result (Puts W.contents self.old self.new (separator ∷ bytes.now)) }
        ensures err { OnErr result (Breaks W.contents self.old self.new (separator ∷ bytes.now)) }
    {
        self.put_byte(separator)?;
        self.put(bytes)
    }

    /// Puts a byte that separates, and a number behind it, whose digits are written in their place.
    pub fn put_number_after(&mut self, separator: u8, number: u64) -> Result<(), WriteFault>
        ensures ok { OnOk result (Puts W.contents self.old self.new (separator ∷ decimal number)) }
        ensures err { OnErr result
            (Breaks W.contents self.old self.new (separator ∷ decimal number)) }
    {
        // A byte and at most twenty digits.
        if self.piece.room() < 21 {
            return self.put_number_apart(separator, number);
        }
        self.piece.push(separator);
        self.piece.push_number(number);
        Ok(())
    }

    /// Puts them where the piece may have no room for both.
    #[cold]
    fn put_number_apart(&mut self, separator: u8, number: u64) -> Result<(), WriteFault>
        ensures ok { OnOk result (Puts W.contents self.old self.new (separator ∷ decimal number)) }
        ensures err { OnErr result
            (Breaks W.contents self.old self.new (separator ∷ decimal number)) }
    {
        self.put_after(separator, Buffer::new().format(number).as_bytes())
    }

    /// Puts bytes, and each number behind them with a byte before it that separates. Where the
    /// bytes are known, and how many numbers there are, nothing is called for the common ones.
    #[inline(always)]
    pub fn put_numbers(
        &mut self,
        word: &[u8],
        separator: u8,
        numbers: &[u64],
    ) -> Result<(), WriteFault>
        ensures ok { OnOk result
            (Puts W.contents self.old self.new (word.now ++ separated separator numbers.now)) }
        ensures err { OnErr result
            (Breaks W.contents self.old self.new (word.now ++ separated separator numbers.now)) }
    {
        // A byte and at most twenty digits a number.
        if numbers.len() > MOST_NUMBERS || self.piece.room() < word.len() + 21 * MOST_NUMBERS {
            return self.put_numbers_apart(word, separator, numbers);
        }
        self.piece.append(word);
        self.piece.push_numbers(separator, numbers);
        Ok(())
    }

    /// Puts them one after another, where the piece may have no room for all.
    #[cold]
    fn put_numbers_apart(
        &mut self,
        word: &[u8],
        separator: u8,
        numbers: &[u64],
    ) -> Result<(), WriteFault>
        ensures ok { OnOk result
            (Puts W.contents self.old self.new (word.now ++ separated separator numbers.now)) }
        ensures err { OnErr result
            (Breaks W.contents self.old self.new (word.now ++ separated separator numbers.now)) }
    {
        self.put(word)?;
        for number in numbers {
            self.put_number_after(separator, *number)?;
        }
        Ok(())
    }

    /// Hands on all that is held back.
    pub fn hand_on(&mut self) -> Result<(), WriteFault>
        ensures ok { OnOk result (Puts W.contents self.old self.new []) }
        ensures none_held { OnOk result (held_back self.new ≡ []) }
        ensures err { OnErr result (Breaks W.contents self.old self.new []) }
    {
        send(self.writer, self.piece.as_slice())?;
        self.piece.clear();
        Ok(())
    }

    /// Hands on all that is held back, and flushes the writer.
    pub fn flush(&mut self) -> Result<(), WriteFault>
        ensures ok { OnOk result (Puts W.contents self.old self.new []) }
        ensures none_held { OnOk result (held_back self.new ≡ []) }
        ensures err { OnErr result (Breaks W.contents self.old self.new []) }
    {
        self.hand_on()?;
        match self.writer.flush() {
            Ok(()) => Ok(()),
            Err(_) => Err(WriteFault::WriteFailed),
        }
    }
}

/// Gives a writer all of the bytes, up to its first failure.
fn send<W: Write>(writer: &mut Counted<W>, bytes: &[u8]) -> Result<(), WriteFault>
    ensures { WritesText (is_ok result) (W.contents (counted_inner writer.old))
        (W.contents (counted_inner writer.new)) (failures_of writer.old)
        (failures_of writer.new) bytes.now }
{
    let mut rest = bytes;
    while !rest.is_empty() {
        match writer.write(rest) {
            Ok(0) => return Err(WriteFault::WriteFailed),
            Ok(n) => rest = &rest[n..],
            Err(_) => return Err(WriteFault::WriteFailed),
        }
    }
    Ok(())
}
