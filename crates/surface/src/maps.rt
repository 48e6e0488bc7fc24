//! The names of `grid`.
use grid::{Cell, Counted, Map, MapFault, Terrain, WriteFault, read_map, step4, step8, write_map};
use std::alloc::Global;
use std::io::{Read, Write};

pub fn read_text<R: Read + Drop>(alloc: Global, inner: R) -> Result<Map, MapFault> {
    read_map(alloc, &mut Counted::new(inner))
}

pub fn map_text<W: Write>(map: &Map, writer: &mut Counted<W>) -> Result<(), WriteFault> {
    write_map(map, writer)
}

pub fn failed_calls<R>(reader: &Counted<R>) -> u64 {
    reader.failures()
}

pub fn size(map: &Map) -> (u32, u32) {
    (map.width(), map.height())
}

pub fn terrain_at(map: &Map, x: u16, y: u16) -> Option<Terrain> {
    map.terrain(Cell { x, y })
}

pub fn legal_steps(map: &Map, from: Cell, to: Cell) -> (bool, bool) {
    (step4(map, from, to), step8(map, from, to))
}
