//! `mapf map`: reads a map and writes it in canonical form.
ghost use Rattle.ending.specs.Ending.{EndsAndTells, end_of};
ghost use Rattle.text_commands.specs.TextQueries.{RewritesMap};

use ending::{Ending, Status, conclude, finish};
use grid::{read_map, write_map};
use std::alloc::Global;
use std::io::{Read, Write};
use text_io::Counted;

/// As `perform`, with a fault's line on `err`. The answer is the exit status, which stays where
/// `err` fails.
pub fn map_cmd<R: Read, W: Write, E: Write>(
    alloc: Global,
    map: &mut Counted<R>,
    out: &mut Counted<W>,
    err: &mut Counted<E>,
) -> u8
    ensures { EndsAndTells (RewritesMap R.remaining W.contents map.old map.new out.old out.new)
        E.contents err.old err.new result }
{
    conclude(perform(alloc, map, out), err)
}

/// Reads a map from `map` and writes its canonical text to `out`.
pub fn perform<R: Read, W: Write>(
    alloc: Global,
    map: &mut Counted<R>,
    out: &mut Counted<W>,
) -> Ending
    ensures { RewritesMap R.remaining W.contents map.old map.new out.old out.new (end_of result) }
{
    match read_map(alloc, map) {
        Ok(map) => {
            let written = write_map(&map, out);
            finish(written, Ending::answered_with(Status::Done), out)
        }
        Err(fault) => Ending::gave_up(fault.words()),
    }
}
