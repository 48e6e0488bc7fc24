//! How far the judging of rows has come, for people.
ghost use Rattle.std.specs.Prelude.{true};
ghost use Rattle.text_commands.specs.RowsCommand.{ShowsProgress};

use crate::tally::Tally;
use ending::write_text;
use std::alloc::{AllocError, Global};
use std::io::Write;
use text_io::Counted;

/// Progress is shown before the first row, after so many, and after the last.
const ROWS_BETWEEN: u64 = 16;

/// Says how many rows are done, and how many of them disagree, over what was said before, where
/// that is to be shown.
pub(crate) fn show_progress<E: Write>(
    alloc: Global,
    is_shown: bool,
    tally: &Tally,
    total: usize,
    err: &mut Counted<E>,
)
    ensures { ShowsProgress E.contents is_shown err.old err.new }
{
    if is_shown {
        say(alloc, tally, total as u64, err);
    }
}

/// Ends the line of progress, where it was shown and no last row has ended it: a fault is told in a
/// line of its own.
pub(crate) fn end_progress<E: Write>(is_shown: bool, is_whole: bool, err: &mut Counted<E>)
    ensures { ShowsProgress E.contents is_shown err.old err.new }
{
    if is_shown && !is_whole {
        let _ = write_text(b"\n", err);
    }
}

fn say<E: Write>(alloc: Global, tally: &Tally, total: u64, err: &mut Counted<E>)
    ensures { ShowsProgress E.contents true err.old err.new }
{
    if tally.rows % ROWS_BETWEEN != 0 && tally.rows != total {
        return;
    }
    // Where memory is refused for it, nothing is shown.
    if let Ok(text) = progress_text(alloc, tally, total) {
        let _ = write_text(text.as_bytes(), err);
    }
}

fn progress_text(alloc: Global, tally: &Tally, total: u64) -> Result<String, AllocError> {
    let rows = tally.rows;
    let bad = tally.bad();
    let end = if rows == total { "\n" } else { "" };
    format!(in alloc; "\r{rows} of {total} rows, {bad} disagree{end}")
}
