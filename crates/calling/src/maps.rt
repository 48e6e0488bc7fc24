//! Calling `grid`: a map is read, and asked which steps it allows.
ghost use Rattle.std.specs.Prelude.{◌↔◌, IfOk, IsTrue};
ghost use Rattle.grid.specs.Map.{IsMap, IsStraightStep};

use grid::{Cell, Map, MapFault, read_map, step4};
use std::alloc::Global;
use text_io::Counted;

/// Reads a map that lies in memory; a fault says where the text is wrong.
pub fn map_of(alloc: Global, text: &[u8]) -> Result<Map, MapFault>
    ensures { IfOk result IsMap }
{
    let map = read_map(alloc, &mut Counted::new(text))?;
    // Each call on a map says that it is one within its limits.
    let _width = map.width();
    Ok(map)
}

/// Whether a straight step leads from one cell to another: none does off the map.
pub fn may_go(map: &Map, from: Cell, to: Cell) -> bool
    ensures { IsTrue result ↔ IsStraightStep map.now from to }
{
    step4(map, from, to)
}
