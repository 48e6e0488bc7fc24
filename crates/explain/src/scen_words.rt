//! The faults of a scenario.
use crate::files::open_again;
use crate::lines::{Line, LineEnd};
use crate::page::Page;
use crate::showing::show_line;
use crate::spans::{Parts, Span, content, number};
use crate::told::Told;
use std::io::Read;
use std::rt::Files;
use text_io::{Counted, FaultName, PIECE, Source};

/// The fields of a row.
static FIELDS: [&str; 9] = [
    "bucket",
    "map name",
    "width",
    "height",
    "x of the start",
    "y of the start",
    "x of the goal",
    "y of the goal",
    "listed length",
];

/// Finds the first line that holds more than blanks.
pub(crate) fn find_first_line<R: Files>(rt: &R, path: &str, line: &mut Line) {
    find_filled(rt, path, 0, line);
}

/// Finds the line behind so many that hold more than blanks, and answers how many of these there
/// are before it.
pub(crate) fn find_filled<R: Files>(rt: &R, path: &str, count: u64, line: &mut Line) -> u64 {
    match open_again(rt, path) {
        Some(file) => {
            let mut reader = Counted::new(file);
            let mut source = Source::new(&mut reader);
            line.number = 0;
            take_filled(&mut source, count, line)
        }
        None => {
            line.find(rt, path, 1);
            0
        }
    }
}

fn take_filled<F: Read>(source: &mut Source<'_, F, PIECE>, count: u64, line: &mut Line) -> u64 {
    let mut before = 0u64;
    for _ in 0..u64::MAX {
        line.take(source);
        if matches!(line.end, LineEnd::Missing | LineEnd::Unread) {
            break;
        }
        if is_filled(line.bytes()) {
            if before == count {
                break;
            }
            before = before.saturating_add(1);
        }
    }
    before
}

/// Whether the line holds more than blanks.
fn is_filled(line: &[u8]) -> bool {
    let Span { from, upto } = content(line);
    from < upto
}

/// Explains a fault of a scenario, at this line.
pub(crate) fn explain_scenario(told: &Told<'_>, line: &Line, page: &mut Page) {
    let fields = Parts::fields(line.bytes());
    match told.fault {
        FaultName::NoVersion => no_version(line, page),
        FaultName::LineTooLong => {
            show_line(page, line, Span::at_column(4097));
            page.say("A line has at most 4096 bytes.\n");
        }
        FaultName::FieldCount => field_count(fields, line, page),
        FaultName::BadNumber => bad_number(told.number(1), fields, line, page),
        FaultName::OutOfGrid => out_of_grid(fields, line, page),
        _ => {
            show_line(page, line, fields.get(8).unwrap_or(content(line.bytes())));
            page.say(
                "The listed length must be 1 to 7 digits, perhaps with a point and 1 to 12 digits behind them, as 12.24264069.\n",
            );
        }
    }
}

fn no_version(line: &Line, page: &mut Page) {
    if line.is_there() {
        show_line(page, line, content(line.bytes()));
    } else {
        page.say("There is no line with more than blanks. ");
    }
    page.say("The first line must be `version 1`.\n");
}

fn field_count(fields: Parts, line: &Line, page: &mut Page) {
    let count = fields.count();
    let end = content(line.bytes()).upto;
    show_line(page, line, fields.get(9).unwrap_or(Span::before(end)));
    page.fill(
        "The row has {} fields, and must have nine: bucket, map name, width, height, x and y of the start,\nx and y of the goal, listed length. ",
        &[count],
    );
    page.say(if line.bytes().contains(&b'\t') {
        "This row has tabs, so only a tab divides two fields.\n"
    } else {
        "This row has no tab, so spaces divide its fields.\n"
    });
}

fn bad_number(field: u64, fields: Parts, line: &Line, page: &mut Page) {
    let place = usize::try_from(field.saturating_sub(1)).unwrap_or(0);
    let span = fields.get(place).unwrap_or(content(line.bytes()));
    show_line(page, line, span);
    page.fill("Field {}, the ", &[field]);
    page.fill("{}, is ", &[field_name(place)]);
    page.quote(span.of(line.bytes()));
    page.say(match field {
        1 => ", and must be a number up to 4294967295, in digits alone.\n",
        3 | 4 => ", and must be a number from 1 to 65535, in digits alone.\n",
        _ => ", and must be a number in digits alone.\n",
    });
}

fn field_name(place: usize) -> &'static str {
    FIELDS.get(place).copied().unwrap_or("field")
}

/// Says which coordinate is not below the row's width or height.
fn out_of_grid(fields: Parts, line: &Line, page: &mut Page) {
    for place in 4..8 {
        let limit = if place % 2 == 0 { 2 } else { 3 };
        let (Some(span), Some(side)) = (fields.get(place), fields.get(limit)) else {
            return;
        };
        let most = number(side.of(line.bytes())).unwrap_or(0);
        if !is_below(span.of(line.bytes()), most) {
            show_line(page, line, span);
            put_limit(field_name(place), field_name(limit), most, page);
            return;
        }
    }
}

/// Whether digits are a number below this one. More digits than a number can have are none.
fn is_below(digits: &[u8], most: u64) -> bool {
    number(digits).is_some_and(|value| value < most)
}

fn put_limit(name: &str, side: &str, most: u64, page: &mut Page) {
    page.fill("The {} must be below the row's {}, ", &[name, side]);
    page.fill("{}: columns and rows count from 0.\n", &[most]);
}
