//! `mapf scen`: reads a scenario and writes it in canonical form.
ghost use Rattle.ending.specs.Ending.{EndsAndTells, end_of};
ghost use Rattle.text_commands.specs.TextQueries.{RewritesScen};

use ending::{Ending, Status, conclude, finish};
use scenario::{read_scen, write_scen};
use std::alloc::Global;
use std::io::{Read, Write};
use text_io::Counted;

/// As `perform`, with a fault's line on `err`. The answer is the exit status, which stays where
/// `err` fails.
pub fn scen_cmd<R: Read, W: Write, E: Write>(
    alloc: Global,
    scen: &mut Counted<R>,
    out: &mut Counted<W>,
    err: &mut Counted<E>,
) -> u8
    ensures { EndsAndTells (RewritesScen R.remaining W.contents scen.old scen.new out.old out.new)
        E.contents err.old err.new result }
{
    conclude(perform(alloc, scen, out), err)
}

/// Reads a scenario from `scen` and writes its canonical text to `out`.
pub fn perform<R: Read, W: Write>(
    alloc: Global,
    scen: &mut Counted<R>,
    out: &mut Counted<W>,
) -> Ending
    ensures { RewritesScen R.remaining W.contents scen.old scen.new out.old out.new
        (end_of result) }
{
    match read_scen(alloc, scen) {
        Ok(scenario) => {
            let written = write_scen(&scenario, out);
            finish(written, Ending::answered_with(Status::Done), out)
        }
        Err(fault) => Ending::gave_up(fault.words()),
    }
}
