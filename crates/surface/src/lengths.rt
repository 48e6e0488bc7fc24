//! The names of `scen`.
use grid::{Cell, Counted, Map, WriteFault};
use scen::{
    CertFault, Length, LengthTable, Listed, Proposal, Row, ScenFault, Scenario, SearchFault,
    agrees, certify, read_scen, search, write_scen,
};
use std::alloc::{AllocError, Global};
use std::io::{Read, Write};

pub fn listed_length(n: u64, d: u8, straight: u32, diagonal: u32) -> Option<bool> {
    let length = Length::new(straight, diagonal)?;
    let listed = Listed::new(n, d)?;
    Some(agrees(listed, length))
}

pub fn read_rows<R: Read>(alloc: Global, reader: &mut Counted<R>) -> Result<Scenario, ScenFault> {
    read_scen(alloc, reader)
}

pub fn write_rows<W: Write>(
    scenario: &Scenario,
    writer: &mut Counted<W>,
) -> Result<(), WriteFault> {
    write_scen(scenario, writer)
}

pub fn row_fields(row: &Row) -> (u32, &[u8], u32, u32, Cell, Cell, Listed) {
    (
        row.bucket(),
        row.name(),
        row.width(),
        row.height(),
        row.start(),
        row.goal(),
        row.listed(),
    )
}

pub fn searched(
    alloc: Global,
    map: &Map,
    start: Cell,
    goal: Cell,
) -> Result<Proposal, SearchFault> {
    search(alloc, map, start, goal)
}

pub fn table_of(alloc: Global, entries: &[Option<Length>]) -> Result<LengthTable, AllocError> {
    LengthTable::from_entries(alloc, entries)
}

pub fn certified(
    map: &Map,
    start: Cell,
    goal: Cell,
    walk: Vec<Cell>,
    table: LengthTable,
) -> Result<Option<Length>, CertFault> {
    certify(map, start, goal, &Proposal { walk, table })
}
