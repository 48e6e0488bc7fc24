//! How each command is read.
ghost use Rattle.std.specs.Prelude.{◌≡◌, IfOk, IfErr};
ghost use Rattle.clap.specs.Words.{found_of, rows_of};
ghost use Rattle.command_line.specs.Words.{HasValues, IsCommand};
ghost use Rattle.command_line.specs.Code.Parts.{HasWords, IsRefusal};

use crate::LineFault;
use crate::lines::Line;
use crate::plan_words::read_plan_command;
use crate::run_words::read_run_command;
use crate::text_words::read_text_command;
use crate::words::no_command;
use clap::ArgMatches;
use std::alloc::Global;

/// Reads the command with this name, by the words that it was given.
pub(crate) fn read_command(
    alloc: Global,
    name: &str,
    given: &ArgMatches<'_>,
) -> Result<Line, LineFault>
    ensures ok { IfOk result (IsCommand name.now (rows_of (found_of given.now))) }
    ensures err { IfErr result (λ e. HasWords name.now (rows_of (found_of given.now))
        → HasValues name.now (rows_of (found_of given.now))
        → e ≡ LineFault.OutOfMemory) }
    ensures refusal { IfErr result IsRefusal }
{
    if let Some(read) = read_text_command(alloc, name, given) {
        return read;
    }
    if let Some(read) = read_plan_command(alloc, name, given) {
        return read;
    }
    if let Some(read) = read_run_command(alloc, name, given) {
        return read;
    }
    Err(no_command(alloc))
}
