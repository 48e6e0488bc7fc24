//! What an input line says.
ghost use Rattle.std.specs.Prelude.{◌≡◌, ℕ, ◌^◌, ◌<◌, ◌≤◌, ◌*◌, ◌↔◌, ⊤, IsTrue, MatchOption};
ghost use Rattle.std.specs.Prelude.{length};
ghost use Rattle.carrier_text.specs.CarrierLines.{longest_carrier_line, IsUnclear, SpellsReport};
ghost use Rattle.carrier_text.specs.CarrierLines.{SpellsCarrierEvent, SpellsNoEvent, event_in};
ghost use Rattle.carrier_text.specs.CarrierLines.{LiesIn};
ghost use Rattle.carrier_text.specs.Code.Coordinates.{IsSmallNumber, IsNoSmallNumber, LeadsNumber};
ghost use Rattle.carrier_text.specs.Code.Coordinates.{LeadsNoNumber, IsCell, IsNoCell};
ghost use Rattle.carrier_text.specs.Code.Coordinates.{AreTwoCells, AreNoTwoCells};

use crate::report::Report;
use grid::Cell;
use hex::decode_to_slice;
use memchr::memchr;
use text_io::small_numeral;

/// A line that says something has no more bytes before its LF.
pub const LONGEST_LINE: usize = 131072;

/// No column and no row has a larger number.
const LARGEST_NUMBER: u32 = 65535;

/// What an input line says.
#[derive(Clone, Copy, Debug, PartialEq, Eq)]
pub enum CarrierLine {
    /// The drive reports this.
    Drive(Report),
    /// A message of so many bytes came from the network. They stand at the front of a room.
    Hear(usize),
    /// Some time has passed.
    Tick,
    /// The file of the plan was replaced.
    Plan,
    /// From now on the robot begins no move.
    Stop,
    /// The robot is to end.
    End,
}

/// Reads what a line without its LF says, and a message into the front of the room. `None` means
/// that the line says nothing.
pub fn read_line(line: &[u8], room: &mut [u8]) -> Option<CarrierLine>
    requires not_longer { length line.now ≤ longest_carrier_line }
    requires has_room { longest_carrier_line ≤ 2 * length room.old }
    ensures says { MatchOption result (SpellsNoEvent line.now)
        (λ said. SpellsCarrierEvent (event_in room.new said) line.now) }
    ensures fits { MatchOption result ⊤ (λ said. LiesIn room.new said) }
{
    if is_word(line, b"tick") {
        return Some(CarrierLine::Tick);
    }
    if is_word(line, b"plan") {
        return Some(CarrierLine::Plan);
    }
    if is_word(line, b"stop") {
        return Some(CarrierLine::Stop);
    }
    if is_word(line, b"end") {
        return Some(CarrierLine::End);
    }
    if let Some(words) = line.strip_prefix(b"drive ") {
        return Some(CarrierLine::Drive(read_report(words)));
    }
    let digits = line.strip_prefix(b"hear ")?;
    let count = digits.len() / 2;
    decode_to_slice(digits, &mut room[..count]).ok()?;
    Some(CarrierLine::Hear(count))
}

fn is_word(line: &[u8], word: &[u8]) -> bool
    ensures { IsTrue result ↔ (line.now ≡ word.now) }
{
    line == word
}

/// The report in the words behind `drive `.
fn read_report(words: &[u8]) -> Report
    ensures { SpellsReport result words.now }
{
    clear_report(words).unwrap_or(Report::Unclear)
}

/// The same, if the words say where the drive is.
fn clear_report(words: &[u8]) -> Option<Report>
    ensures { MatchOption result (IsUnclear words.now) (λ report. SpellsReport report words.now) }
{
    if let Some(numbers) = words.strip_prefix(b"stands ") {
        return Some(Report::Stands(read_cell(numbers)?));
    }
    let numbers = words.strip_prefix(b"between ")?;
    let (from, to) = read_cells(numbers)?;
    Some(Report::Between(from, to))
}

/// Two cells, with a space between them.
fn read_cells(bytes: &[u8]) -> Option<(Cell, Cell)>
    ensures { MatchOption result (AreNoTwoCells bytes.now)
        (λ cells. AreTwoCells cells.0 cells.1 bytes.now) }
{
    let (x, rest) = split_number(bytes)?;
    let (y, rest) = split_number(rest)?;
    let to = read_cell(rest)?;
    Some((Cell { x, y }, to))
}

/// A column and a row, with a space between them.
fn read_cell(bytes: &[u8]) -> Option<Cell>
    ensures { MatchOption result (IsNoCell bytes.now) (λ cell. IsCell cell bytes.now) }
{
    let (x, rest) = split_number(bytes)?;
    let y = read_number(rest)?;
    Some(Cell { x, y })
}

/// The number before the first space, and what stands behind that space.
fn split_number(bytes: &[u8]) -> Option<(u16, &[u8])>
    ensures { MatchOption result (LeadsNoNumber bytes.now)
        (λ found. LeadsNumber found.0 bytes.now found.1.now) }
{
    let place = memchr(b' ', bytes)?;
    let number = read_number(&bytes[..place])?;
    Some((number, &bytes[place + 1..]))
}

/// The number that all of the bytes spell.
fn read_number(digits: &[u8]) -> Option<u16>
    ensures { MatchOption result (IsNoSmallNumber digits.now)
        (λ number. IsSmallNumber number digits.now) }
{
    let number = small_numeral(digits)?;
    if number > LARGEST_NUMBER {
        return None;
    }
    Some(number as u16)
}
