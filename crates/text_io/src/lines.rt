//! The bytes of a reader, a line at a time.
ghost use Rattle.std.specs.Prelude.{◌≡◌, ℕ, List, take, drop, length};
ghost use Rattle.std.specs.List.{prefix_len};
ghost use Rattle.text_io.specs.declared.counted.Counted.{Counted};
ghost use Rattle.text_io.specs.Text.{is_line_byte};
ghost use Rattle.text_io.specs.Source.{at_hand, is_stopped, most_left, Takes};

use crate::{Source, Stop};
use memchr::memchr;
use std::io::Read;

/// How a line came to its end.
#[derive(Clone, Copy, Debug, PartialEq, Eq)]
pub enum TakenLine {
    /// So many bytes, and an LF.
    WithLineFeed(usize),
    /// So many bytes up to the end of the input, perhaps none.
    AtEnd(usize),
    /// More bytes than there is room for. They are taken up to the first past it.
    TooLong,
    /// The reader failed before the line's end came.
    Failed,
}

impl<R: Read, const AHEAD: usize> Source<'_, R, AHEAD> {
    ghost use Rattle.text_io.specs.Lines.{HasTaken, HasBegun, LineTaken};
    ghost use Rattle.text_io.specs.Lines.{LinePassed, LeavesLess, PassesLess};

    /// Takes a line into the front of `room`, without the LF that ends it.
    pub fn take_line(&mut self, room: &mut [u8]) -> TakenLine
        ensures same_reader { self.new.reader.ghost_name ≡ self.old.reader.ghost_name }
        ensures taken { (first : Counted R) (before : List (List ℕ))
            → HasTaken R.remaining first self.old before
            → LineTaken R.remaining first self.new before room.new result }
        ensures less_left { LeavesLess result (most_left self.old) (most_left self.new) }
    {
        let mut count = 0;
        loop {
            count += self.take_part(&mut room[count..]);
            match self.next_byte() {
                Ok(b'\n') => return TakenLine::WithLineFeed(count),
                Ok(b) => {
                    if count == room.len() {
                        return TakenLine::TooLong;
                    }
                    room[count] = b;
                    count += 1;
                }
                Err(Stop::End) => return TakenLine::AtEnd(count),
                Err(Stop::Failure) => return TakenLine::Failed,
            }
        }
    }

    /// Takes what is left of a line up to and with its LF, without keeping it, or says why the LF
    /// didn't come.
    pub fn pass_line(&mut self) -> Result<(), Stop>
        ensures same_reader { self.new.reader.ghost_name ≡ self.old.reader.ghost_name }
        ensures passed { (first : Counted R) (before : List (List ℕ)) (front : List ℕ)
            → HasBegun R.remaining first self.old before front
            → LinePassed R.remaining first self.new before front result }
        ensures less_left { PassesLess result (most_left self.old) (most_left self.new) }
    {
        'parts: loop {
            let count = line_len(self.at_hand());
            self.take(count);
            match self.next_byte() {
                Ok(b'\n') => return Ok(()),
                Ok(_) => {}
                Err(stop) => return Err(stop),
            }
        }
    }

    /// Takes what is at hand of a line, as far as there is room, and says how many bytes.
    fn take_part(&mut self, room: &mut [u8]) -> usize
        ensures count { result ≡ prefix_len is_line_byte
            (take (length room.old) (at_hand self.old)) }
        ensures copied { take result room.new ≡ take result (at_hand self.old) }
        ensures takes { Takes R.remaining self.old self.new (take result (at_hand self.old)) }
        ensures rest { at_hand self.new ≡ drop result (at_hand self.old) }
        ensures stop { is_stopped self.new ≡ is_stopped self.old }
    {
        let bytes = self.at_hand();
        let most = bytes.len().min(room.len());
        let count = line_len(&bytes[..most]);
        room[..count].copy_from_slice(&bytes[..count]);
        self.take(count);
        count
    }
}

/// How many bytes stand before the first LF.
fn line_len(bytes: &[u8]) -> usize
    ensures { result ≡ prefix_len is_line_byte bytes.now }
{
    memchr(b'\n', bytes).unwrap_or(bytes.len())
}
