//! Lengths, tables of them, and counted readers.
use crate::texts::{SQUARE, map_of};
use grid::{Cell, Map};
use scen::{Length, LengthTable, Listed, Proposal, agrees, certify};
use std::alloc::{AllocError, Global};
use std::io::Read;
use text_io::{Counted, OutOfMemory};

/// Lengths with a listed number of so many decimals each, and whether they agree.
static LISTED: [((u32, u32), (u64, u8), bool); 4] = [
    ((3, 2), (582_842_712, 8), true),
    ((3, 2), (582_842_714, 8), false),
    ((3, 2), (5, 0), true),
    ((0, 1), (0, 0), false),
];

fn agree(length: (u32, u32), listed: (u64, u8)) -> Option<bool> {
    let length = Length::new(length.0, length.1)?;
    let listed = Listed::new(listed.0, listed.1)?;
    Some(agrees(listed, length))
}

fn all_agree() -> bool {
    let mut are_right = true;
    for &(length, listed, due) in &LISTED {
        are_right = are_right && agree(length, listed) == Some(due);
    }
    are_right
}

/// The shortest lengths from the first cell of the square.
const SHORTEST: [(u32, u32); 4] = [(0, 0), (1, 0), (1, 0), (0, 1)];

const START: Cell = Cell { x: 0, y: 0 };

const GOAL: Cell = Cell { x: 1, y: 1 };

/// Whether a caller's own table and walk prove the shortest length across the square.
fn is_proved(alloc: Global, map: &Map) -> Result<bool, AllocError> {
    let entries = SHORTEST.map(|(straight, diagonal)| Length::new(straight, diagonal));
    let proposal = Proposal {
        walk: Vec::from_slice(alloc, &[START, GOAL])?,
        table: LengthTable::from_entries(alloc, &entries)?,
    };
    Ok(certify(map, START, GOAL, &proposal) == Ok(Length::new(0, 1)))
}

/// Whether a counted reader passes a call on, and has not failed.
fn is_counted() -> bool {
    let mut reader = Counted::new(b"abc".as_slice());
    let mut bytes = [0; 2];
    let is_read = matches!(reader.read(&mut bytes), Ok(2)) && bytes == *b"ab";
    is_read && reader.failures() == 0 && *reader.inner() == b"c".as_slice()
}

fn are_right(alloc: Global) -> Result<bool, OutOfMemory> {
    let map = map_of(alloc, SQUARE)?;
    Ok(all_agree() && is_counted() && is_proved(alloc, &map)?)
}

#[test]
fn values_of_a_caller(rt: HostRuntime) {
    let mut found = are_right(rt.alloc());
    if found.is_err() {
        found = are_right(rt.alloc());
    }
    assert!(rt; found == Ok(true));
}
