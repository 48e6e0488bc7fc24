//! The faults of a map.
use crate::lines::{Line, LineEnd};
use crate::page::Page;
use crate::showing::show_line;
use crate::spans::{Span, content, number};
use crate::told::Told;
use std::rt::Files;
use text_io::FaultName;

/// How many cells a row has, and how many rows there are.
#[derive(Clone, Copy)]
pub(crate) struct Size {
    pub(crate) width: u64,
    pub(crate) height: u64,
}

/// The size that the second and the third line give a map.
pub(crate) fn map_size<R: Files>(rt: &R, path: &str) -> Option<Size> {
    let mut line = Line::new();
    line.find(rt, path, 2);
    let height = number_behind(line.bytes(), b"height")?;
    line.find(rt, path, 3);
    let width = number_behind(line.bytes(), b"width")?;
    Some(Size { width, height })
}

/// The number behind the word that begins a line.
fn number_behind(line: &[u8], word: &[u8]) -> Option<u64> {
    let rest = content(line).of(line).strip_prefix(word)?;
    number(content(rest).of(rest))
}

/// Explains a fault of a map, at this line.
pub(crate) fn explain_map<R: Files>(
    rt: &R,
    path: &str,
    told: &Told<'_>,
    line: &Line,
    page: &mut Page,
) {
    match told.fault {
        FaultName::BadHeader => bad_header(line, page),
        FaultName::BadNumber => bad_number(line, page),
        FaultName::TooLarge => too_large(rt, path, line, page),
        FaultName::BadTerrain => bad_terrain(told.number(1), line, page),
        FaultName::TextAfter => text_after(rt, path, line, page),
        other => bad_row(other, map_size(rt, path), line, page),
    }
}

/// What the line with this number begins with.
fn header_word(number: u64) -> &'static str {
    match number {
        1 => "type octile",
        2 => "height",
        3 => "width",
        _ => "map",
    }
}

fn bad_header(line: &Line, page: &mut Page) {
    let number = line.number;
    if line.is_there() {
        show_line(page, line, content(line.bytes()));
    } else {
        page.fill("The text ends before line {}. ", &[number]);
    }
    put_header(number, page);
    if content(line.bytes()).of(line.bytes()).starts_with(b"width") && number == 2 {
        page.say("The height comes first, and then the width.\n");
    }
}

/// Says what the line with this number must be.
fn put_header(number: u64, page: &mut Page) {
    let word = header_word(number);
    page.fill("Line {} must be `", &[number]);
    page.say(word);
    page.say(if number == 2 || number == 3 {
        "`, a blank and a number.\n"
    } else {
        "`.\n"
    });
}

fn bad_number(line: &Line, page: &mut Page) {
    let word = header_word(line.number);
    let value = span_behind(line.bytes(), word);
    show_line(page, line, value);
    page.fill(
        "The {} must be a number from 1 to 65535, in digits alone, and is ",
        &[word],
    );
    page.quote(value.of(line.bytes()));
    page.say(".\n");
}

/// What stands behind the word that begins a line.
fn span_behind(line: &[u8], word: &str) -> Span {
    let Span { from, upto } = content(line);
    let behind = from.saturating_add(word.len()).min(upto);
    let given = Span { from: behind, upto };
    let blanks = content(given.of(line)).from;
    Span {
        from: behind.saturating_add(blanks),
        upto,
    }
}

fn too_large<R: Files>(rt: &R, path: &str, line: &Line, page: &mut Page) {
    show_line(page, line, content(line.bytes()));
    page.say("A height and a width are at most 65535 each, and a map has at most 4194304 cells");
    match map_size(rt, path) {
        Some(size) if line.number == 3 && size.width <= 65_535 => {
            let Size { width, height } = size;
            let cells = width.saturating_mul(height);
            page.fill(": {} times {} are {}.\n", &[width, height, cells]);
        }
        _ => page.say(".\n"),
    }
}

fn bad_terrain(column: u64, line: &Line, page: &mut Page) {
    let place = Span::at_column(column);
    let given = place.of(line.bytes());
    show_line(page, line, place);
    let (x, y) = (column.saturating_sub(1), row_of(line));
    page.fill("Cell {} {} (its column and row, from 0) is ", &[x, y]);
    page.quote(given);
    page.say(".\nA cell is one of . G (land) S (swamp) W (water) @ O (out of bounds) T (trees).\n");
    page.say(terrain_hint(given.first().copied()));
}

/// What is said of a character that is often written in place of terrain.
fn terrain_hint(character: Option<u8>) -> &'static str {
    match character {
        Some(b'\r') => "A CR ends a line only before an LF.\n",
        Some(b' ' | b'\t') =>
            "No blanks stand in a row, neither before nor between nor behind its cells.\n",
        Some(b'g' | b's' | b'w' | b'o' | b't') => "Terrain is written in capital letters.\n",
        Some(b'#' | b'x' | b'X' | b'*' | b'1') => "A wall is written `@` or `T`.\n",
        Some(b'0' | b'_') => "A free cell is written `.`.\n",
        _ => "",
    }
}

/// How many cells the line has as a row.
fn cells_of(line: &Line) -> u64 {
    u64::try_from(content(line.bytes()).upto).unwrap_or(u64::MAX)
}

/// The row that the line is of, from 0.
fn row_of(line: &Line) -> u64 {
    line.number.saturating_sub(5)
}

/// Rows that are too short, too long or not there.
fn bad_row(fault: FaultName, size: Option<Size>, line: &Line, page: &mut Page) {
    let Size { width, height } = size.unwrap_or(Size {
        width: 0,
        height: 0,
    });
    match fault {
        FaultName::ShortRow => short_row(width, line, page),
        FaultName::LongRow => long_row(width, line, page),
        _ => missing_rows(height, line, page),
    }
}

fn short_row(width: u64, line: &Line, page: &mut Page) {
    let end = content(line.bytes()).upto;
    show_line(page, line, Span::before(end));
    page.fill(
        "Row {} (from 0) has {} cells, and line 3 gives the width {}.\n",
        &[row_of(line), cells_of(line), width],
    );
    if line.end == LineEnd::EndOfText {
        page.say("The text ends here.\n");
    }
}

fn long_row(width: u64, line: &Line, page: &mut Page) {
    show_line(page, line, Span::at_column(width.saturating_add(1)));
    page.fill(
        "Row {} (from 0) must end after {} cells, the width that line 3 gives, and has {}.\n",
        &[row_of(line), width, cells_of(line)],
    );
}

fn missing_rows(height: u64, line: &Line, page: &mut Page) {
    let row = row_of(line);
    page.fill(
        "The text ends after {} rows, and line 2 gives the height {}.\n",
        &[row, height],
    );
}

fn text_after<R: Files>(rt: &R, path: &str, line: &Line, page: &mut Page) {
    show_line(page, line, content(line.bytes()));
    match map_size(rt, path) {
        Some(size) => {
            let height = size.height;
            page.fill(
                "Behind the {} rows that line 2 gives only empty lines may follow.\n",
                &[height],
            );
        }
        None => page.say("Behind the rows only empty lines may follow.\n"),
    }
}
