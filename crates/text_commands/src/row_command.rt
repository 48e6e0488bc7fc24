//! `mapf row`: judges the listed length of a scenario's row on a map.
ghost use Rattle.std.specs.Prelude.{◌≡◌, ◌↔◌, IsTrue, IfErr, MatchResult};
ghost use Rattle.walks.specs.Certificate.{AreOn};
ghost use Rattle.ending.specs.Ending.{EndsAndTells, end_of};
ghost use Rattle.text_commands.specs.RowCommand.{HasSizeOf, IsAsked, IsUncertified, IsVerdictOn};
ghost use Rattle.text_commands.specs.RowCommand.{JudgesRow, ReadsAndJudges, AnswersRow};

use crate::row_fault::RowFault;
use crate::row_verdict::{RowVerdict, write_row_verdict};
use ending::{Ending, conclude, finish};
use grid::{Cell, Map, read_map};
use scenario::{Row, Scenario, read_scen};
use std::alloc::Global;
use std::io::{Read, Write};
use text_io::Counted;
use walks::{Proposal, SearchFault, certify, search};

/// As `perform`, with a fault's line on `err`. The answer is the exit status, which stays where
/// `err` fails.
pub fn row_cmd<R: Read, S: Read, W: Write, E: Write>(
    alloc: Global,
    map: &mut Counted<R>,
    scen: &mut Counted<S>,
    row: u32,
    out: &mut Counted<W>,
    err: &mut Counted<E>,
) -> u8
    ensures { EndsAndTells
        (AnswersRow R.remaining S.remaining W.contents map.old map.new scen.old scen.new row
        out.old out.new)
        E.contents err.old err.new result }
{
    conclude(perform(alloc, map, scen, row, out), err)
}

/// Reads a map from `map` and a scenario from `scen`, and writes the shortest length for the
/// scenario's row with this number, counted from 0, and whether the listed one agrees with it, to
/// `out`.
pub fn perform<R: Read, S: Read, W: Write>(
    alloc: Global,
    map: &mut Counted<R>,
    scen: &mut Counted<S>,
    row: u32,
    out: &mut Counted<W>,
) -> Ending
    ensures { AnswersRow R.remaining S.remaining W.contents map.old map.new scen.old scen.new row
        out.old out.new (end_of result) }
{
    match read_and_judge(alloc, map, scen, row) {
        Ok(verdict) => {
            let written = write_row_verdict(verdict, out);
            finish(written, Ending::answered_with(verdict.status()), out)
        }
        Err(fault) => Ending::gave_up(fault.words()),
    }
}

/// Reads the map and then the scenario, and judges the row.
fn read_and_judge<R: Read, S: Read>(
    alloc: Global,
    map: &mut Counted<R>,
    scen: &mut Counted<S>,
    number: u32,
) -> Result<RowVerdict, RowFault>
    ensures { ReadsAndJudges R.remaining S.remaining map.old map.new scen.old scen.new
        number result }
{
    let map = read_map(alloc, map)?;
    let scenario = read_scen(alloc, scen)?;
    judge(alloc, &map, &scenario, number)
}

/// Compares the listed length of the row with this number with that of a certified shortest walk.
fn judge(alloc: Global, map: &Map, scenario: &Scenario, number: u32) -> Result<RowVerdict, RowFault>
    ensures { JudgesRow map.now scenario.now number result }
{
    let row = row_for(map, scenario, number)?;
    verdict_on(alloc, map, row)
}

/// The same of a row that is for the map.
fn verdict_on(alloc: Global, map: &Map, row: &Row) -> Result<RowVerdict, RowFault>
    requires { AreOn map.now row.now.start row.now.goal }
    ensures { MatchResult result (IsVerdictOn map.now row.now) (IsUncertified map.now row.now) }
{
    let (start, goal) = (row.start(), row.goal());
    let proposal = propose(alloc, map, start, goal)?;
    let shortest = certify(map, start, goal, &proposal)?;
    Ok(RowVerdict::new(shortest, row.listed()))
}

/// Searches for a shortest walk between two cells of the map.
fn propose(alloc: Global, map: &Map, start: Cell, goal: Cell) -> Result<Proposal, RowFault>
    requires { AreOn map.now start goal }
    ensures { IfErr result (λ fault. fault ≡ RowFault.OutOfMemory) }
{
    match search(alloc, map, start, goal) {
        Ok(proposal) => Ok(proposal),
        Err(SearchFault::OutOfMemory) => Err(RowFault::OutOfMemory),
        Err(SearchFault::OutOfRange) => unreachable!(),
    }
}

/// The row with this number, if it is for a map of this size.
fn row_for<'a>(map: &Map, scenario: &'a Scenario, number: u32) -> Result<&'a Row, RowFault>
    ensures { MatchResult result
        (λ row. IsAsked map.now scenario.now number row.now)
        (λ fault. JudgesRow map.now scenario.now number (Err fault)) }
{
    match scenario.rows().get(number as usize) {
        Some(row) if is_for(row, map) => Ok(row),
        Some(_) => Err(RowFault::SizeDiffers(number)),
        None => Err(RowFault::NoSuchRow),
    }
}

/// Whether the row is for a map of this size. Then its start and goal, which are in its own grid,
/// are on the map.
pub(crate) fn is_for(row: &Row, map: &Map) -> bool
    ensures size { IsTrue result ↔ HasSizeOf map.now row.now }
    ensures on_map { IsTrue result → AreOn map.now row.now.start row.now.goal }
{
    row.width() == map.width() && row.height() == map.height()
}
