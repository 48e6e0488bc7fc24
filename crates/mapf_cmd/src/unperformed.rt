//! How the program ends where its words are no command.
ghost use Rattle.std.specs.Prelude.{◌≡◌, IfSome, map, string_bytes};
ghost use Rattle.ending.specs.Ending.{EndsAndTells, answered_with};
ghost use Rattle.ending.specs.Rewriting.{EndsWriting};
ghost use Rattle.mapf_cmd.specs.Program.{AsksForFaultHelp, EndsRefused, EndsUnperformed};

use command_line::LineFault;
use ending::{Ending, Status, conclude, finish, write_text};
use explain::{FaultHelp, fault_help};
use std::io::Write;
use text_io::{Counted, Failure};

/// Shows help on a fault, where the words ask for that, and else what `refuse` does. The answer is
/// the exit status.
// Compiled by itself, for its room on the stack.
#[inline(never)]
pub(crate) fn end_unperformed<W: Write, E: Write>(
    words: &[String],
    fault: LineFault,
    out: &mut Counted<W>,
    err: &mut Counted<E>,
) -> u8
    ensures { EndsUnperformed W.contents E.contents (map string_bytes words.now) fault out.old
        out.new err.old err.new result }
{
    match fault_help_of(words, &fault) {
        Some(help) => show(help.as_bytes(), out, err),
        None => refuse(fault, out, err),
    }
}

/// The help on a fault, or on all of them, for which the words ask that are no command.
fn fault_help_of(words: &[String], fault: &LineFault) -> Option<FaultHelp>
    ensures { IfSome result (λ _. AsksForFaultHelp (map string_bytes words.now) fault.now) }
{
    match (fault, words) {
        (LineFault::BadCommand(_), [_, help, topic]) => match help.as_str() {
            "help" => fault_help(topic),
            _ => None,
        },
        _ => None,
    }
}

/// Shows the help that was asked for, or says why the words are no command. The answer is the exit
/// status.
pub fn refuse<W: Write, E: Write>(
    fault: LineFault,
    out: &mut Counted<W>,
    err: &mut Counted<E>,
) -> u8
    ensures { EndsRefused W.contents E.contents fault out.old out.new err.old err.new result }
{
    match fault {
        LineFault::Help(text) => show(text.as_bytes(), out, err),
        LineFault::BadCommand(text) => {
            let _ = write_text(text.as_bytes(), err);
            Status::BadCommand.code()
        }
        LineFault::OutOfMemory => conclude(Ending::gave_up(Failure::OutOfMemory.words()), err),
    }
}

/// Shows a text on the output.
fn show<W: Write, E: Write>(text: &[u8], out: &mut Counted<W>, err: &mut Counted<E>) -> u8
    ensures { EndsAndTells
        (λ end. EndsWriting W.contents out.old out.new (answered_with Status.Done) end text.now)
        E.contents err.old err.new result }
{
    let written = write_text(text, out);
    conclude(
        finish(written, Ending::answered_with(Status::Done), out),
        err,
    )
}
