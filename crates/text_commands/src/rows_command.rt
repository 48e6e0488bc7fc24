//! `mapf rows`: judges the rows of a scenario on a map, one after another.
ghost use Rattle.std.specs.Prelude.{◌≡◌, ◌≤◌, ◌<◌, ◌⊎◌, [], MatchOption, length, unwrap_or};
ghost use Rattle.text_io.specs.Sink.{held_back};
ghost use Rattle.text_commands.specs.Code.Judging.{Judgement, PutsAllRows, PutsRows};
ghost use Rattle.ending.specs.Ending.{end_of};
ghost use Rattle.text_commands.specs.RowsCommand.{AnswersRows, EndsByJudging, EndsUnjudged};
ghost use Rattle.text_commands.specs.RowsCommand.{ShowsEndsAndTells, ShowsProgress, rows_between};
ghost use Rattle.text_commands.specs.Code.RowsEnding.{EndsAsTold, WritesRows};

use crate::judge::Judge;
use crate::last_line::send_last_line;
use crate::progress::{end_progress, show_progress};
use crate::row_fault::RowFault;
use crate::rows_fault::RowsFault;
use crate::tally::Tally;
use ending::{Ending, conclude};
use grid::{Map, read_map};
use scenario::{Row, read_scen};
use std::alloc::Global;
use std::io::{Read, Write};
use text_io::{Counted, Sink, WriteFault};

/// Which rows are judged, and how: from one up to before another, each counted from 0; where
/// `straight` is set it is the least number of straight steps that is told, and where `progress` is
/// set it is said how far that has come.
#[derive(Clone, Copy, Debug, PartialEq, Eq)]
pub struct RowsAsked {
    pub from: Option<u32>,
    pub to: Option<u32>,
    pub straight: bool,
    pub progress: bool,
}

/// As `perform`, with a fault's line on `err`. The answer is the exit status, which stays where
/// `err` fails.
pub fn rows_cmd<R: Read, S: Read, W: Write, E: Write>(
    alloc: Global,
    map: &mut Counted<R>,
    scen: &mut Counted<S>,
    asked: &RowsAsked,
    out: &mut Counted<W>,
    err: &mut Counted<E>,
) -> u8
    ensures { ShowsEndsAndTells
        (AnswersRows R.remaining S.remaining W.contents asked.now map.old map.new scen.old scen.new
        out.old out.new)
        E.contents asked.now.progress err.old err.new result }
{
    conclude(perform(alloc, map, scen, asked, out, err), err)
}

/// Reads a map from `map` and a scenario from `scen`, and writes a line for each row that is asked
/// for, as soon as it is judged, and a last line that counts to `out`; `err` gets nothing but
/// progress.
pub fn perform<R: Read, S: Read, W: Write, E: Write>(
    alloc: Global,
    map: &mut Counted<R>,
    scen: &mut Counted<S>,
    asked: &RowsAsked,
    out: &mut Counted<W>,
    err: &mut Counted<E>,
) -> Ending
    ensures answers { AnswersRows R.remaining S.remaining W.contents asked.now map.old map.new
        scen.old scen.new out.old out.new (end_of result) }
    ensures progress { ShowsProgress E.contents asked.now.progress err.old err.new }
{
    let map = match read_map(alloc, map) {
        Ok(map) => map,
        Err(fault) => return Ending::gave_up(RowFault::Map(fault).words()),
    };
    let scenario = match read_scen(alloc, scen) {
        Ok(scenario) => scenario,
        Err(fault) => return Ending::gave_up(RowFault::Scen(fault).words()),
    };
    match between(scenario.rows(), asked) {
        Some(rows) => judge_on(alloc, &map, rows, asked, out, err),
        None => Ending::gave_up(RowFault::NoSuchRow.words()),
    }
}

/// The rows that are asked for, if the first of them is no later than the end.
fn between<'a>(rows: &'a [Row], asked: &RowsAsked) -> Option<&'a [Row]>
    ensures { MatchOption result (length rows.now < unwrap_or asked.now.from 0)
        (λ some. (unwrap_or asked.now.from 0 ≤ length rows.now)
        × (some.now ≡ rows_between asked.now.from asked.now.to rows.now)) }
{
    let count = rows.len();
    let from = asked.from.unwrap_or(0) as usize;
    if count < from {
        return None;
    }
    let to = match asked.to {
        Some(to) => (to as usize).min(count).max(from),
        None => count,
    };
    Some(&rows[from..to])
}

/// Judges rows on a map.
fn judge_on<W: Write, E: Write>(
    alloc: Global,
    map: &Map,
    rows: &[Row],
    asked: &RowsAsked,
    out: &mut Counted<W>,
    err: &mut Counted<E>,
) -> Ending
    ensures ends { EndsUnjudged out.old out.new (end_of result) RowFault.OutOfMemory
        ⊎ EndsByJudging W.contents asked.now.straight map.now rows.now (unwrap_or asked.now.from 0)
        out.old out.new (end_of result) }
    ensures progress { ShowsProgress E.contents asked.now.progress err.old err.new }
{
    match Judge::on(alloc, map, asked.straight) {
        Ok(mut judge) => {
            let told = write_rows(&mut judge, rows, asked, out, err);
            end_progress(asked.progress, told.is_ok(), err);
            ending_of(told)
        }
        Err(_) => Ending::gave_up(RowFault::OutOfMemory.words()),
    }
}

/// How the command ends, by what came of the rows.
fn ending_of(told: Result<Tally, RowsFault>) -> Ending
    ensures { EndsAsTold told (end_of result) }
{
    match told {
        Ok(tally) => Ending::answered_with(tally.status()),
        Err(RowsFault::Row(fault)) => Ending::gave_up(fault.words()),
        Err(RowsFault::WriteFailed) => Ending::gave_up(WriteFault::WriteFailed.words()),
    }
}

/// Judges rows, and writes their lines and the last line.
// Compiled by itself, for its room on the stack.
#[inline(never)]
fn write_rows<W: Write, E: Write>(
    judge: &mut Judge<'_>,
    rows: &[Row],
    asked: &RowsAsked,
    out: &mut Counted<W>,
    err: &mut Counted<E>,
) -> Result<Tally, RowsFault>
    requires { judge.old.straight ≡ asked.now.straight }
    ensures writes { WritesRows W.contents judge.old rows.now (unwrap_or asked.now.from 0) out.old
        out.new result }
    ensures progress { ShowsProgress E.contents asked.now.progress err.old err.new }
{
    let mut sink = Sink::new(out);
    put_all(judge, rows, asked, &mut sink, err)
}

fn put_all<W: Write, E: Write>(
    judge: &mut Judge<'_>,
    rows: &[Row],
    asked: &RowsAsked,
    sink: &mut Sink<'_, W>,
    err: &mut Counted<E>,
) -> Result<Tally, RowsFault>
    requires none_held { held_back sink.old ≡ [] }
    requires straight { judge.old.straight ≡ asked.now.straight }
    ensures puts { PutsAllRows W.contents judge.old rows.now (unwrap_or asked.now.from 0) sink.old
        sink.new result }
    ensures progress { ShowsProgress E.contents asked.now.progress err.old err.new }
{
    let tally = put_lines(judge, rows, asked, sink, err)?;
    send_last_line(sink, &tally, asked.straight)?;
    Ok(tally)
}

/// Judges one row after another, and puts their lines.
fn put_lines<W: Write, E: Write>(
    judge: &mut Judge<'_>,
    rows: &[Row],
    asked: &RowsAsked,
    sink: &mut Sink<'_, W>,
    err: &mut Counted<E>,
) -> Result<Tally, RowsFault>
    requires { held_back sink.old ≡ [] }
    ensures puts { PutsRows W.contents judge.old rows.now (unwrap_or asked.now.from 0) sink.old
        sink.new result }
    ensures progress { ShowsProgress E.contents asked.now.progress err.old err.new }
{
    let total = rows.len();
    let mut tally = Tally::new();
    let mut number = u128::from(asked.from.unwrap_or(0));
    show_progress(judge.alloc(), asked.progress, &tally, total, err);
    for row in rows {
        tally = judge.put_next(row, number, &tally, sink)?;
        number += 1;
        show_progress(judge.alloc(), asked.progress, &tally, total, err);
    }
    Ok(tally)
}
