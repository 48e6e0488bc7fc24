//! The commands over maps and scenarios: what help says of each, and how its words are read.
ghost use Rattle.std.specs.Prelude.{◌≡◌, codes, map, IfErr, IfOk, IsTrue};
ghost use Rattle.std.specs.Prelude.{MatchOption, is_some, ⊤};
ghost use Rattle.std.specs.Option.{IfSome};
ghost use Rattle.clap.specs.Words.{Text, first_of, found_of, rows_of};
ghost use Rattle.command_line.specs.Words.{HasValues, IsCommand, IsTextQuery, text_usages};
ghost use Rattle.command_line.specs.Code.Parts.{HasWords, IsOther, IsRefusal};
ghost use Rattle.command_line.specs.Code.Parts.{shape_of_text, shapes_of};

use crate::LineFault;
use crate::help::Word::{Cell as CellOption, Flag, Named, Required};
use crate::help::{self, CommandText, EXPLAIN};
use crate::lines::{Line, RowsLine};
use crate::words::{has_flag, long_number, optional_cell, optional_long_number, word};
use clap::ArgMatches;
use grid::Cell;
use std::alloc::Global;

/// What is asked of a map or a scenario, for which no other file is read.
#[derive(Clone, Copy, Debug, PartialEq, Eq)]
pub enum TextQuery {
    /// The canonical form of a map, perhaps with a cell out of bounds.
    Map { block: Option<Cell> },
    /// The canonical form of a scenario.
    Scen,
}

/// The commands over maps and scenarios, in the order in which help lists them. Those over plans
/// follow, and then those of runs: as one list they would be too much for one proof.
pub(crate) fn text_commands() -> &'static [CommandText<'static>]
    ensures { map shape_of_text result.now ≡ shapes_of text_usages }
{
    TEXT_COMMANDS
}

/// Reads the command with this name by the words that it was given, if it is one of these.
pub(crate) fn read_text_command(
    alloc: Global,
    name: &str,
    given: &ArgMatches<'_>,
) -> Option<Result<Line, LineFault>>
    ensures other { MatchOption result (IsOther name.now text_usages) (λ _. ⊤) }
    ensures ok { IfSome result
        (λ r. IfOk r (IsCommand name.now (rows_of (found_of given.now)))) }
    ensures err { IfSome result (λ r. IfErr r (λ e. HasWords name.now (rows_of (found_of given.now))
        → HasValues name.now (rows_of (found_of given.now))
        → e ≡ LineFault.OutOfMemory)) }
    ensures refusal { IfSome result (λ r. IfErr r IsRefusal) }
{
    match name {
        "map" => Some(read_map(alloc, given)),
        "scen" => Some(read_text(alloc, given, TextQuery::Scen)),
        "row" => Some(read_row(alloc, given)),
        "rows" => Some(read_rows(alloc, given)),
        _ => None,
    }
}

/// Reads a query on a map or a scenario by the words that it was given.
fn read_text(alloc: Global, given: &ArgMatches<'_>, query: TextQuery) -> Result<Line, LineFault>
    ensures ok { IfOk result (λ line. (name : Text)
        → IsTextQuery name (rows_of (found_of given.now)) query
        → IsCommand name (rows_of (found_of given.now)) line) }
    ensures err { IfErr result
        (λ e. IsTrue (is_some (first_of (codes "file") (rows_of (found_of given.now))))
        → e ≡ LineFault.OutOfMemory) }
    ensures refusal { IfErr result IsRefusal }
{
    Ok(Line::Text {
        file: word(alloc, given, "file")?,
        query,
    })
}

/// Reads `map` by the words that it was given.
fn read_map(alloc: Global, given: &ArgMatches<'_>) -> Result<Line, LineFault>
    ensures ok { IfOk result (IsCommand (codes "map") (rows_of (found_of given.now))) }
    ensures err { IfErr result (λ e. HasWords (codes "map") (rows_of (found_of given.now))
        → HasValues (codes "map") (rows_of (found_of given.now))
        → e ≡ LineFault.OutOfMemory) }
    ensures refusal { IfErr result IsRefusal }
{
    let block = optional_cell(alloc, given, "block", help::NO_BLOCK)?;
    read_text(alloc, given, TextQuery::Map { block })
}

/// Reads `row` by the words that it was given.
fn read_row(alloc: Global, given: &ArgMatches<'_>) -> Result<Line, LineFault>
    ensures ok { IfOk result (IsCommand (codes "row") (rows_of (found_of given.now))) }
    ensures err { IfErr result (λ e. HasWords (codes "row") (rows_of (found_of given.now))
        → HasValues (codes "row") (rows_of (found_of given.now))
        → e ≡ LineFault.OutOfMemory) }
    ensures refusal { IfErr result IsRefusal }
{
    Ok(Line::Row {
        map: word(alloc, given, "map")?,
        scen: word(alloc, given, "scen")?,
        row: long_number(alloc, given, "row", &help::ROW_NUMBER)?,
    })
}

/// Reads `rows` by the words that it was given.
fn read_rows(alloc: Global, given: &ArgMatches<'_>) -> Result<Line, LineFault>
    ensures ok { IfOk result (IsCommand (codes "rows") (rows_of (found_of given.now))) }
    ensures err { IfErr result (λ e. HasWords (codes "rows") (rows_of (found_of given.now))
        → HasValues (codes "rows") (rows_of (found_of given.now))
        → e ≡ LineFault.OutOfMemory) }
    ensures refusal { IfErr result IsRefusal }
{
    Ok(Line::Rows(RowsLine {
        map: word(alloc, given, "map")?,
        scen: word(alloc, given, "scen")?,
        from: optional_long_number(alloc, given, "from", 0, help::NO_FROM)?,
        to: optional_long_number(alloc, given, "to", 0, help::NO_TO)?,
        straight: has_flag(given, "straight"),
        progress: has_flag(given, "progress"),
    }))
}

const TEXT_COMMANDS: &[CommandText<'static>] = &[
    CommandText {
        name: "map",
        about: "Reads a map and writes it in canonical form",
        after_help: "\
Standard output is the canonical text of the map. The file - is standard input.
With --block the cell is out of bounds in what is written (@), so that no plan
may enter it: as where a robot broke down and stays. To block more cells, give
the text that is written to the command again.

Status:
  0  the text is written
  1  the map has a fault, or no such cell: one line on standard error, as
     `mapf: ShortRow 6`
  2  a bad command line
  3  the file can't be opened (--explain says why), a device failed, or memory
     was refused

Example:
  mapf map examples/corner.map",
        words: &[
            Required("file", "The file of the map"),
            CellOption("block", "Writes the map with this cell out of bounds"),
            EXPLAIN,
        ],
    },
    CommandText {
        name: "scen",
        about: "Reads a scenario and writes it in canonical form",
        after_help: "\
Standard output is the canonical text of the scenario. The file - is standard
input.

Status:
  0  the text is written
  1  the scenario has a fault: one line on standard error, as `mapf: NoVersion`
  2  a bad command line
  3  the file can't be opened (--explain says why), a device failed, or memory
     was refused

Example:
  mapf scen examples/corner.scen",
        words: &[Required("file", "The file of the scenario"), EXPLAIN],
    },
    CommandText {
        name: "row",
        about: "Judges the length that a scenario lists for one of its rows",
        after_help: "\
Standard output is one line. S and D are the straight and the diagonal steps of
a shortest walk, L is the listed length:
  shortest S D listed L agrees    the listed length is right
  shortest S D listed L differs   it isn't
  unreachable                     no walk leads from the start to the goal

Status:
  0  the answer is `agrees`
  1  the answer is `differs` or `unreachable`, a text has a fault, or the row
     isn't there or lists another size than that of the map
  2  a bad command line
  3  a file can't be opened (--explain says which, and why), a device failed, or
     memory was refused

The length counts diagonal steps, which agents of plans don't make: what they
need at least is told by `mapf rows --straight` and `mapf bound`.

Example:
  mapf row examples/corner.map examples/corner.scen 0",
        words: &[
            Required("map", "The file of the map"),
            Required("scen", "The file of the scenario"),
            Required("row", "The number of the row, counted from 0"),
            EXPLAIN,
        ],
    },
    CommandText {
        name: "rows",
        about: "Judges the lengths of a scenario, or tells the least straight steps",
        after_help: "\
Standard output is a line for each row, its number first, as soon as it is
judged:
  I shortest S D listed L agrees    as `mapf row` answers: the listed length is
  I shortest S D listed L differs   right, or it isn't
  I unreachable                     no walk leads from the start to the goal
  I SizeDiffers                     the row lists another size than the map's
and then a line that counts them:
  rows R agree A differ D unreachable U size Z
With --straight a walk has no diagonal steps, as that of an agent of a plan:
  I least N                         it takes N steps at least
  rows R sum S greatest G unreachable U size Z
So with --straight --to K, S and G are the least sum of costs and the least
makespan that a plan for the first K rows might have.

Status:
  0  each row agrees; with --straight: each has a least number of steps
  1  some don't, a text has a fault, or there are fewer rows than --from says
  2  a bad command line
  3  a file can't be opened (--explain says which, and why), a device failed, or
     memory was refused

Example:
  mapf rows examples/corner.map examples/corner.scen",
        words: &[
            Required("map", "The file of the map"),
            Required("scen", "The file of the scenario"),
            Named("from", "The first row, from 0 on"),
            Named("to", "The row before which it ends"),
            Flag("straight", "Tells the least numbers of straight steps"),
            Flag(
                "progress",
                "Says on standard error how far it has come, in any case",
            ),
            EXPLAIN,
        ],
    },
];
