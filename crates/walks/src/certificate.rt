//! Certificates of shortest lengths: proposed by any search, and judged here.
ghost use Rattle.std.specs.Prelude.{◌≡◌, ◌∷◌, ◌*◌, Some, IfOk, IsTrue, length, ◌↔◌};
ghost use Rattle.text_io.specs.FaultWords.{words_of, words_text};
ghost use Rattle.grid.specs.Map.{terrain_at};
ghost use Rattle.walks.specs.FaultWords.{cert_fault_words};
ghost use Rattle.walks.specs.Walk.{IsOn, IsWalk};
ghost use Rattle.walks.specs.Certificate.{entry_of, IsTable, IsProof, Certifies, IsLeast};

use crate::length_table::LengthTable;
use grid::{Cell, Map, step4, step8};
use scenario::Length;
use std::fmt;
use text_io::{FaultName, FaultWords};
use thiserror::Error;

/// What a search proposes: a walk, and for each cell, row by row, a length from the start, or none.
#[derive(Debug, Drop)]
pub struct Proposal {
    pub walk: Vec<Cell>,
    pub table: LengthTable,
}

/// Why a proposal proves nothing.
#[derive(Clone, Copy, Debug, PartialEq, Eq, Error)]
pub enum CertFault {
    /// The walk isn't one of just the goal's length, or isn't empty where the goal has none.
    BadWalk,
    /// The table hasn't one entry a cell, or that of the start isn't the length of no step.
    BadTable,
    /// A step leads from a cell with a length to one without, or to one whose length it improves.
    NotTight,
    /// Start or goal is off the map.
    OutOfRange,
}

impl CertFault {
    /// The words in which it is told.
    pub fn words(self) -> FaultWords
        ensures { words_of result ≡ cert_fault_words self }
    {
        match self {
            CertFault::BadWalk => FaultWords::new(FaultName::BadWalk, &[]),
            CertFault::BadTable => FaultWords::new(FaultName::BadTable, &[]),
            CertFault::NotTight => FaultWords::new(FaultName::NotTight, &[]),
            CertFault::OutOfRange => FaultWords::new(FaultName::OutOfRange, &[]),
        }
    }
}

impl fmt::Display for CertFault {
    ghost output = { λ fault. Some (words_text (cert_fault_words fault)) };

    fn fmt<W: fmt::Write>(&self, f: &mut fmt::Formatter<W>) -> fmt::Result {
        self.words().fmt(f)
    }
}

/// The shortest length from the start to the goal, or `None` where no walk leads there, if the
/// proposal proves it. Faults are tested in the order `OutOfRange`, `BadTable`, `NotTight`,
/// `BadWalk`.
pub fn certify(
    map: &Map,
    start: Cell,
    goal: Cell,
    proposal: &Proposal,
) -> Result<Option<Length>, CertFault>
    ensures answer { Certifies map.now start goal proposal.now result }
    ensures least { IfOk result (IsLeast map.now start goal) }
{
    if !is_on(map, start) || !is_on(map, goal) {
        return Err(CertFault::OutOfRange);
    }
    let table = &proposal.table;
    if !is_table(map, start, table) {
        return Err(CertFault::BadTable);
    }
    if !table.is_tight(map) {
        return Err(CertFault::NotTight);
    }
    let length = entry(map, table, goal);
    if is_proof(map, start, goal, proposal.walk.as_slice(), length) {
        Ok(length)
    } else {
        Err(CertFault::BadWalk)
    }
}

/// Whether the cell is on the map.
pub(crate) fn is_on(map: &Map, cell: Cell) -> bool
    ensures { IsTrue result ↔ IsOn map.now cell }
{
    map.terrain(cell).is_some()
}

/// The entry of a cell.
pub(crate) fn entry(map: &Map, table: &LengthTable, cell: Cell) -> Option<Length>
    ensures { result ≡ entry_of map.now table.now cell }
{
    table.entry(cell.y as usize * map.width() as usize + cell.x as usize)
}

fn is_table(map: &Map, start: Cell, table: &LengthTable) -> bool
    ensures { IsTrue result ↔ IsTable map.now start table.now }
{
    let count = map.width() as usize * map.height() as usize;
    match entry(map, table, start) {
        Some(length) => table.len() == count && is_of(length, 0, 0),
        None => false,
    }
}

/// Whether the walk is one of just this length, or is empty where there is none.
fn is_proof(map: &Map, start: Cell, goal: Cell, walk: &[Cell], length: Option<Length>) -> bool
    ensures { IsTrue result ↔ IsProof map.now start goal walk.now length }
{
    match length {
        Some(length) => leads_to(map, start, goal, walk, length),
        None => walk.is_empty(),
    }
}

/// Whether the walk leads from the start to the goal by just so many steps of each kind.
fn leads_to(map: &Map, start: Cell, goal: Cell, walk: &[Cell], length: Length) -> bool
    ensures { IsTrue result ↔ IsWalk map.now start goal walk.now length.straight length.diagonal }
{
    match walk.split_first() {
        Some((first, rest)) => *first == start
            && is_on(map, start)
            && follows(map, start, goal, rest, length),
        None => false,
    }
}

/// Whether the cells go on from the start to the goal by just so many steps of each kind.
fn follows(map: &Map, start: Cell, goal: Cell, rest: &[Cell], length: Length) -> bool
    requires { IsOn map.now start }
    ensures { IsTrue result
        ↔ IsWalk map.now start goal (start ∷ rest.now) length.straight length.diagonal }
{
    let mut last = start;
    let mut straight = 0u64;
    let mut diagonal = 0u64;
    for next in rest {
        if step4(map, last, *next) {
            straight += 1;
        } else if step8(map, last, *next) {
            diagonal += 1;
        } else {
            return false;
        }
        last = *next;
    }
    last == goal && is_of(length, straight, diagonal)
}

fn is_of(length: Length, straight: u64, diagonal: u64) -> bool
    ensures { IsTrue result ↔ ((straight ≡ length.straight) × (diagonal ≡ length.diagonal)) }
{
    u64::from(length.straight) == straight && u64::from(length.diagonal) == diagonal
}
