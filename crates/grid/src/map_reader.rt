//! Reading the text of a map.
ghost use Rattle.std.specs.Prelude.{◌≡◌, ℕ, ◌+◌, ◌*◌, ◌^◌, ◌<◌, ◌≤◌, ◌⊎◌, zero};
ghost use Rattle.std.specs.Prelude.{suc, min, false, List, [], ◌++◌, length, IsTrue, MatchResult};
ghost use Rattle.text_io.specs.Counted.{greatest, counted_inner, failures_of};
ghost use Rattle.std.specs.List.{list_all};
ghost use Rattle.grid.specs.Terrain.{is_terrain};
ghost use Rattle.text_io.specs.Reading.{ReadsText};
ghost use Rattle.grid.specs.MapText.{MapText, is_rest_byte};
ghost use Rattle.grid.specs.MapFault.{MapFaultAt, type_due, rows_due, map_outcome};
ghost use Rattle.grid.specs.Map.{IsSize};
ghost use Rattle.text_io.specs.Source.{Takes, GoesOn, IsAtEnd, has_failed, at_hand, source_reader};
ghost use Rattle.grid.specs.Code.HeaderLine.{saying_of};
ghost use Rattle.grid.specs.Code.Following.{TakesLine, TakesRight, StopsReading, FailsInLine};
ghost use Rattle.grid.specs.Code.Following.{SaysNoWords, SaysNoSize, HasNoTerrain, EndsRow};
ghost use Rattle.grid.specs.Code.Following.{StopsRow, TakesRow, TakesRows};

use crate::header_line::{HeaderLine, Progress, Saying};
use crate::terrain_scan::terrain_run;
use crate::{Map, MapFault};
use std::alloc::Global;
use std::io::Read;
use text_io::{Counted, LARGE_PIECE, Source, Stop};

/// The greatest width and height.
const MOST_SIDE: u32 = 65_535;

/// The greatest number of cells.
const MOST_CELLS: u32 = 4_194_304;

/// Reads a map of type `octile`, the whole text. The first faulty place is answered; a reader that
/// fails is not read again, and the answer is then the fault that its bytes decide, or else
/// `ReadFailed`.
pub fn read_map<R: Read>(alloc: Global, reader: &mut Counted<R>) -> Result<Map, MapFault>
    ensures { ReadsText MapText MapFaultAt (R.remaining (counted_inner reader.old))
        (R.remaining (counted_inner reader.new))
        (failures_of reader.old) (failures_of reader.new) (map_outcome result) }
{
    let mut source = Source::new(reader);
    read_text(alloc, &mut source)
}

/// Reads the text of a source of which nothing was taken.
fn read_text<R: Read>(
    alloc: Global,
    source: &mut Source<'_, R, LARGE_PIECE>,
) -> Result<Map, MapFault>
    requires fresh { (at_hand source.old ≡ []) × GoesOn source.old }
    ensures same_reader { source.new.reader.ghost_name ≡ source.old.reader.ghost_name }
    ensures reads { ReadsText MapText MapFaultAt
        (R.remaining (counted_inner (source_reader source.old)))
        (R.remaining (counted_inner (source_reader source.new)))
        (failures_of (source_reader source.old)) (failures_of (source_reader source.new))
        (map_outcome result) }
{
    let (width, height) = read_header(source)?;
    let characters = read_rows(alloc, source, width, height)?;
    read_rest(source, width, u64::from(height) + 5)?;
    Ok(Map::from_characters(width, height, characters))
}

/// The width and the height.
fn read_header<R: Read>(source: &mut Source<'_, R, LARGE_PIECE>) -> Result<(u32, u32), MapFault>
    ensures { MatchResult result
        (λ size. IsSize size.0 size.1 × (lines : List (List ℕ)) × (length lines ≡ 4)
        × TakesRight R.remaining source.old source.new type_due (rows_due size.0 size.1) lines)
        (StopsReading R.remaining source.old source.new type_due 0) }
{
    read_words(source, HeaderLine::TypeLine, 1)?;
    let height = read_size(source, HeaderLine::HeightLine, 2, MOST_SIDE)?;
    let width = read_size(
        source,
        HeaderLine::WidthLine,
        3,
        MOST_SIDE.min(MOST_CELLS / height),
    )?;
    read_words(source, HeaderLine::MapLine, 4)?;
    Ok((width, height))
}

/// Reads a line of the header that has words alone.
fn read_words<R: Read>(
    source: &mut Source<'_, R, LARGE_PIECE>,
    line: HeaderLine,
    number: u64,
) -> Result<(), MapFault>
    ensures { MatchResult result
        (λ _. (bytes : List ℕ) × TakesLine R.remaining source.old source.new bytes
        × (saying_of line bytes ≡ Saying.Whole))
        (λ fault. ((fault ≡ MapFault.ReadFailed) × FailsInLine R.remaining source.old source.new)
        ⊎ ((fault ≡ MapFault.BadHeader number) × (bytes : List ℕ)
        × TakesLine R.remaining source.old source.new bytes × SaysNoWords line bytes)) }
{
    match read_header_line(source, line)? {
        Saying::Whole => Ok(()),
        _ => Err(MapFault::BadHeader(number)),
    }
}

/// Reads a line of the header that has a size, from 1 up to a greatest one.
fn read_size<R: Read>(
    source: &mut Source<'_, R, LARGE_PIECE>,
    line: HeaderLine,
    number: u64,
    most: u32,
) -> Result<u32, MapFault>
    ensures { MatchResult result
        (λ n. (0 < n) × (n ≤ most) × (bytes : List ℕ)
        × TakesLine R.remaining source.old source.new bytes
        × (saying_of line bytes ≡ Saying.Size n))
        (λ fault. ((fault ≡ MapFault.ReadFailed) × FailsInLine R.remaining source.old source.new)
        ⊎ ((bytes : List ℕ) × TakesLine R.remaining source.old source.new bytes
        × SaysNoSize line most number bytes fault)) }
{
    match read_header_line(source, line)? {
        Saying::Size(0) | Saying::NoSize => Err(MapFault::BadNumber(number)),
        Saying::Size(size) if size > most => Err(MapFault::TooLarge(number)),
        Saying::Size(size) => Ok(size),
        Saying::Whole | Saying::NoForm => Err(MapFault::BadHeader(number)),
    }
}

/// Takes a line of the header, and what it says.
fn read_header_line<R: Read>(
    source: &mut Source<'_, R, LARGE_PIECE>,
    line: HeaderLine,
) -> Result<Saying, MapFault>
    ensures { MatchResult result
        (λ saying. (bytes : List ℕ) × TakesLine R.remaining source.old source.new bytes
        × (saying ≡ saying_of line bytes))
        (λ fault. (fault ≡ MapFault.ReadFailed) × FailsInLine R.remaining source.old source.new) }
{
    let mut progress = Progress::Word(0);
    loop {
        match source.next_byte() {
            Ok(b'\n') => return Ok(progress.saying(line)),
            Ok(b) => progress = progress.step(line, b),
            Err(Stop::End) => return Ok(progress.saying(line)),
            Err(Stop::Failure) => return Err(MapFault::ReadFailed),
        }
    }
}

/// The characters of all rows.
fn read_rows<R: Read>(
    alloc: Global,
    source: &mut Source<'_, R, LARGE_PIECE>,
    width: u32,
    height: u32,
) -> Result<Vec<u8>, MapFault>
    requires size { IsSize width height }
    requires well { has_failed source.old ≡ false }
    ensures { MatchResult result
        (λ characters. TakesRows R.remaining source.old source.new width height characters.items)
        (StopsReading R.remaining source.old source.new (rows_due width height) 4) }
{
    let mut characters = Vec::with_capacity(alloc, (width * height) as usize)?;
    for row in 0..height {
        read_row(source, width, u64::from(row) + 5, &mut characters)?;
    }
    Ok(characters)
}

/// Adds the characters of a row, and takes its line end.
fn read_row<R: Read>(
    source: &mut Source<'_, R, LARGE_PIECE>,
    width: u32,
    number: u64,
    characters: &mut Vec<u8>,
) -> Result<(), MapFault>
    requires { 0 < width }
    ensures { MatchResult result
        (λ _. (row : List ℕ) × (characters.new.items ≡ characters.old.items ++ row)
        × TakesRow R.remaining source.old source.new width row)
        (λ fault. (count skipped : ℕ) → number ≡ min (skipped + 1) greatest
        → StopsReading R.remaining source.old source.new (rows_due width (suc count))
        skipped fault) }
{
    let mut count = 0;
    while count < width {
        let run = take_terrain(source, width - count, characters)?;
        if run == 0 {
            return Err(row_fault(source, number, count));
        }
        count += run;
    }
    match take_line_end(source) {
        LineEnd::Line => Ok(()),
        LineEnd::Input => Ok(()),
        LineEnd::Other => Err(MapFault::LongRow(number)),
        LineEnd::Failure => Err(MapFault::ReadFailed),
    }
}

/// Takes the terrain characters at hand, up to so many. None are taken where another byte comes, or
/// none at all.
fn take_terrain<R: Read>(
    source: &mut Source<'_, R, LARGE_PIECE>,
    most: u32,
    characters: &mut Vec<u8>,
) -> Result<u32, MapFault>
    requires { 0 < most }
    ensures { MatchResult result
        (λ count. (count ≤ most) × (run : List ℕ) × (length run ≡ count)
        × IsTrue (list_all is_terrain run)
        × (characters.new.items ≡ characters.old.items ++ run)
        × Takes R.remaining source.old source.new run
        × (count ≡ 0 → HasNoTerrain source.new))
        (λ fault. (fault ≡ MapFault.OutOfMemory) × GoesOn source.new
        × Takes R.remaining source.old source.new []) }
{
    if source.fill().is_some() {
        return Ok(0);
    }
    let bytes = source.at_hand();
    let room = bytes.len().min(most as usize);
    let run = terrain_run(&bytes[..room]);
    characters.extend_from_slice(&bytes[..run])?;
    source.take(run);
    Ok(run as u32)
}

/// Why a row with so few characters has no more of them.
fn row_fault<R: Read>(source: &mut Source<'_, R, LARGE_PIECE>, number: u64, count: u32) -> MapFault
    requires { count + 1 < 2 ^ 32 }
    ensures { StopsRow R.remaining source.old source.new number count result }
{
    match take_line_end(source) {
        LineEnd::Line => MapFault::ShortRow(number),
        LineEnd::Input if count == 0 => MapFault::MissingRows(number),
        LineEnd::Input => MapFault::ShortRow(number),
        LineEnd::Other => MapFault::BadTerrain(number, count + 1),
        LineEnd::Failure => MapFault::ReadFailed,
    }
}

/// What comes after the characters of a row.
enum LineEnd {
    /// An LF, or a CR with an LF or with the end of the input.
    Line,
    /// The end of the input.
    Input,
    /// A byte that is no line end, or a CR and such a byte.
    Other,
    Failure,
}

fn take_line_end<R: Read>(source: &mut Source<'_, R, LARGE_PIECE>) -> LineEnd
    ensures { EndsRow R.remaining source.old source.new result }
{
    match source.next_byte() {
        Ok(b'\n') => LineEnd::Line,
        Ok(b'\r') => match source.next_byte() {
            Ok(b'\n') => LineEnd::Line,
            Ok(_) => LineEnd::Other,
            Err(Stop::End) => LineEnd::Line,
            Err(Stop::Failure) => LineEnd::Failure,
        },
        Ok(_) => LineEnd::Other,
        Err(Stop::End) => LineEnd::Input,
        Err(Stop::Failure) => LineEnd::Failure,
    }
}

/// Takes the blanks after the last row, from a line on.
fn read_rest<R: Read>(
    source: &mut Source<'_, R, LARGE_PIECE>,
    width: u32,
    first: u64,
) -> Result<(), MapFault>
    ensures { MatchResult result
        (λ _. IsAtEnd source.new × (lines : List (List ℕ))
        × TakesRight R.remaining source.old source.new (rows_due width zero)
        (rows_due width zero) lines)
        (λ fault. (skipped : ℕ) → first ≡ min (skipped + 1) greatest
        → StopsReading R.remaining source.old source.new (rows_due width zero) skipped fault) }
{
    let mut number = first;
    loop {
        match source.next_byte() {
            Ok(b'\n') => number = number.saturating_add(1),
            Ok(b) => {
                if !is_rest_byte(b) {
                    return Err(MapFault::TextAfter(number));
                }
            }
            Err(Stop::End) => return Ok(()),
            Err(Stop::Failure) => return Err(MapFault::ReadFailed),
        }
    }
}

/// A blank or a CR.
fn is_rest_byte(b: u8) -> bool
    ensures { result ≡ is_rest_byte b }
{
    matches!(b, b' ' | b'\t' | b'\r')
}
