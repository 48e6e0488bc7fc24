//! The lines of the input, one after another.
ghost use Rattle.std.specs.Prelude.{◌≡◌, ℕ, List, length};
ghost use Rattle.text_io.specs.declared.counted.Counted.{Counted};
ghost use Rattle.text_io.specs.Lines.{HasTaken, LineTooLong};
ghost use Rattle.text_io.specs.Source.{most_left};
ghost use Rattle.robot.specs.Code.Reading.{LineCame, LeavesLessBehind};

use std::io::Read;
use text_io::{PIECE, Source, Stop, TakenLine};

/// What came next of the input. A line that is kept has so many bytes at the front of a room; one
/// that is not is longer than it.
#[derive(Clone, Copy)]
pub(crate) enum NextLine {
    /// A line, and its LF.
    Line(Option<usize>),
    /// What stands behind the last LF, and is not empty.
    LastLine(Option<usize>),
    /// The input ended behind an LF, or is empty.
    End,
    /// The reader failed before the LF of a line came.
    Failed,
}

/// Takes the next line, and keeps it in the room if it is not longer.
pub(crate) fn next_line<R: Read>(source: &mut Source<'_, R, PIECE>, room: &mut [u8]) -> NextLine
    ensures same_reader { source.new.reader.ghost_name ≡ source.old.reader.ghost_name }
    ensures came { (first : Counted R) (before : List (List ℕ))
        → HasTaken R.remaining first source.old before
        → LineCame R.remaining first source.new before room.new result }
    ensures less_left { LeavesLessBehind result (most_left source.old) (most_left source.new) }
{
    match source.take_line(room) {
        TakenLine::WithLineFeed(count) => NextLine::Line(Some(count)),
        TakenLine::AtEnd(0) => NextLine::End,
        TakenLine::AtEnd(count) => NextLine::LastLine(Some(count)),
        TakenLine::TooLong => pass_line(source),
        TakenLine::Failed => NextLine::Failed,
    }
}

/// Passes what is left of a line that is too long.
fn pass_line<R: Read>(source: &mut Source<'_, R, PIECE>) -> NextLine
    ensures same_reader { source.new.reader.ghost_name ≡ source.old.reader.ghost_name }
    ensures came { (first : Counted R) (before : List (List ℕ)) (room : List ℕ)
        → LineTooLong R.remaining first source.old before room
        → LineCame R.remaining first source.new before room result }
    ensures less_left { LeavesLessBehind result (most_left source.old) (most_left source.new) }
{
    match source.pass_line() {
        Ok(()) => NextLine::Line(None),
        Err(Stop::End) => NextLine::LastLine(None),
        Err(Stop::Failure) => NextLine::Failed,
    }
}
