//! The program `mapf`: gives the words of the command line to `mapf_cmd`, with the files and
//! streams of the system.
#![tactic(auto)]

use mapf_cmd::{LineFault, Screen, Style, refuse, run};
use std::alloc::Global;
use std::env::VarError;
use std::io::{ErrorKind, IsTerminal};
use std::process::ExitCode;
use std::{env, io};
use text_io::Counted;

const NOT_TEXT: &str =
    "error: a word of the command line is not UTF-8\n\nFor more information, try '--help'.\n";

fn main(rt: HostRuntime) -> ExitCode {
    let mut input = Counted::new(rt.stdin());
    let mut out = Counted::new(rt.stdout());
    let mut err = Counted::new(rt.stderr());
    let status = match words(&rt) {
        Ok(words) => run(
            &rt,
            words.as_slice(),
            screen(&rt),
            &mut input,
            &mut out,
            &mut err,
        ),
        Err(fault) => refuse(fault, &mut out, &mut err),
    };
    ExitCode::from(status)
}

/// The words of the command line, the program's name first. Words that are no text are a bad
/// command line.
fn words(rt: &HostRuntime) -> Result<Vec<String>, LineFault> {
    match env::args(rt) {
        Ok(words) => Ok(words.collect(rt.alloc())?),
        Err(e) => Err(fault_of(rt.alloc(), e)),
    }
}

fn screen(rt: &HostRuntime) -> Screen {
    Screen {
        style: style(rt),
        // On a terminal that gets the rows too, progress would stand between them.
        is_watched: rt.stderr().is_terminal() && !rt.stdout().is_terminal(),
    }
}

/// Colour is for terminals that can show it, and for people who did not ask for none.
fn style(rt: &HostRuntime) -> Style {
    if rt.stderr().is_terminal() && !is_colour_refused(rt) {
        Style::Coloured
    } else {
        Style::Plain
    }
}

/// Whether `NO_COLOR` is set to anything but nothing, or `TERM` names a terminal that shows none.
fn is_colour_refused(rt: &HostRuntime) -> bool {
    let is_unwanted = match env::var(rt, "NO_COLOR") {
        Ok(value) => !value.is_empty(),
        Err(fault) => fault != VarError::NotPresent,
    };
    is_unwanted || matches!(env::var(rt, "TERM"), Ok(term) if term.as_str() == "dumb")
}

fn fault_of(alloc: Global, e: io::Error) -> LineFault {
    match e.kind() {
        ErrorKind::OutOfMemory => LineFault::OutOfMemory,
        _ => LineFault::bad_command(alloc, NOT_TEXT),
    }
}
