//! `mapf map --block`: reads a map and writes it with a cell out of bounds.
ghost use Rattle.ending.specs.Ending.{EndsAndTells, end_of};
ghost use Rattle.text_commands.specs.TextQueries.{BlocksCell, EndsBlocked};

use ending::{Ending, Status, conclude, finish};
use grid::{Cell, Map, read_map, write_map};
use std::alloc::Global;
use std::io::{Read, Write};
use text_io::{Counted, FaultName, FaultWords};

/// As `perform`, with a fault's line on `err`. The answer is the exit status, which stays where
/// `err` fails.
pub fn block_cmd<R: Read, W: Write, E: Write>(
    alloc: Global,
    map: &mut Counted<R>,
    cell: Cell,
    out: &mut Counted<W>,
    err: &mut Counted<E>,
) -> u8
    ensures { EndsAndTells (BlocksCell R.remaining W.contents cell map.old map.new out.old out.new)
        E.contents err.old err.new result }
{
    conclude(perform(alloc, map, cell, out), err)
}

/// Reads a map from `map` and writes to `out` its canonical text, in which nobody may enter the
/// cell.
pub fn perform<R: Read, W: Write>(
    alloc: Global,
    map: &mut Counted<R>,
    cell: Cell,
    out: &mut Counted<W>,
) -> Ending
    ensures { BlocksCell R.remaining W.contents cell map.old map.new out.old out.new
        (end_of result) }
{
    match read_map(alloc, map) {
        Ok(map) => write_blocked(map, cell, out),
        Err(fault) => Ending::gave_up(fault.words()),
    }
}

/// Writes the map with the cell out of bounds, if it is on the map.
fn write_blocked<W: Write>(map: Map, cell: Cell, out: &mut Counted<W>) -> Ending
    ensures { EndsBlocked W.contents cell map out.old out.new (end_of result) }
{
    match map.with_blocked(cell) {
        Some(blocked) => {
            let written = write_map(&blocked, out);
            finish(written, Ending::answered_with(Status::Done), out)
        }
        None => Ending::gave_up(FaultWords::new(
            FaultName::NoSuchCell,
            &[u64::from(cell.x), u64::from(cell.y)],
        )),
    }
}
