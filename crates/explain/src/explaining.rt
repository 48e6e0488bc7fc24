//! The explanation of a fault.
ghost use Rattle.std.specs.Prelude.{◌≡◌};
ghost use Rattle.text_io.specs.Counted.{counted_inner};
ghost use Rattle.text_io.specs.Sink.{sink_writer};
ghost use Rattle.explain.specs.Explaining.{AddsMore};

use crate::departing::explain_departing;
use crate::devices::explain_device;
use crate::files::NamedFile;
use crate::page::{Page, Style};
use crate::plan_faults::explain_plan;
use crate::row_words::{no_such_agent, no_such_cell, no_such_row, size_differs};
use crate::table::put_sentence;
use crate::tapes::explain_tape;
use crate::texts::explain_text;
use crate::told::Told;
use std::io::Write;
use std::rt::Files;
use text_io::{Counted, FaultName, FaultWords, Origin, Sink, WriteFault};

/// What is to be explained.
#[derive(Clone, Copy, Debug)]
pub struct Subject<'a> {
    /// The faults, in the order in which they are explained.
    pub faults: &'a [FaultWords],
    /// More on them, which is put last.
    pub more: &'a str,
}

/// Writes for people what faults mean, behind the line that told the first. `files` are those that
/// the command names, in the order in which it opens them, and behind a tape the plan that is kept
/// beside it; `-` alone is standard input. Each fault says which of them it is of. They are read
/// once more to be shown, and what isn't there any more is left out.
pub fn explain<R: Files, E: Write>(
    rt: &R,
    files: &[NamedFile<'_>],
    subject: Subject<'_>,
    style: Style,
    err: &mut Counted<E>,
)
    ensures { AddsMore (E.contents (counted_inner err.old)) (E.contents (counted_inner err.new)) }
{
    let mut page = Page::new(style);
    for words in subject.faults {
        put_explanation(rt, files, &Told::of(words), &mut page);
    }
    page.say(subject.more);
    let _ = write_page(page.as_bytes(), err);
}

/// Writes the page, or a beginning of it where the writer fails.
fn write_page<E: Write>(text: &[u8], err: &mut Counted<E>) -> Result<(), WriteFault>
    ensures { AddsMore (E.contents (counted_inner err.old)) (E.contents (counted_inner err.new)) }
{
    let mut sink = Sink::new(err);
    put_page(&mut sink, text)
}

fn put_page<E: Write>(sink: &mut Sink<'_, E>, text: &[u8]) -> Result<(), WriteFault>
    ensures same_writer { sink.new.writer.ghost_name ≡ sink.old.writer.ghost_name }
    ensures goes_on { AddsMore (E.contents (counted_inner (sink_writer sink.old)))
        (E.contents (counted_inner (sink_writer sink.new))) }
{
    sink.put(text)?;
    sink.hand_on()
}

/// Puts what is to be said. Standard input is gone once it was read.
fn put_explanation<R: Files>(rt: &R, files: &[NamedFile<'_>], told: &Told<'_>, page: &mut Page) {
    match files {
        [file] if file.path == "-" => {
            let input = NamedFile {
                origin: file.origin,
                path: "",
            };
            put_fault(rt, &[input], told, page);
        }
        _ => put_fault(rt, files, told, page),
    }
}

fn put_fault<R: Files>(rt: &R, files: &[NamedFile<'_>], told: &Told<'_>, page: &mut Page) {
    match told.fault {
        FaultName::NoSuchRow => no_such_row(rt, files, page),
        FaultName::NoSuchCell => no_such_cell(rt, files, page),
        FaultName::SizeDiffers => size_differs(rt, files, told, page),
        FaultName::NoSuchAgent if told.origin != Origin::Proof => no_such_agent(rt, files, page),
        FaultName::BadStart | FaultName::BadMove | FaultName::Vertex | FaultName::Swap => {
            explain_plan(rt, files, told, page);
        }
        FaultName::OtherNumber | FaultName::OtherCount | FaultName::Departs => {
            explain_departing(rt, files, told, page);
        }
        FaultName::OpenFailed | FaultName::ReadFailed => explain_device(rt, files, told, page),
        FaultName::WriteFailed
        | FaultName::OutOfMemory
        | FaultName::StoreFailed
        | FaultName::StaleTape
        | FaultName::NotTight
        | FaultName::TooFewRows
        | FaultName::AgentCount
        | FaultName::StartDiffers
        | FaultName::GoalDiffers => put_sentence(told, page),
        _ => put_fault_of_file(rt, files, told, page),
    }
}

/// Explains a fault of a file's content by what the file is read as.
fn put_fault_of_file<R: Files>(rt: &R, files: &[NamedFile<'_>], told: &Told<'_>, page: &mut Page) {
    match told.origin {
        Origin::Map
        | Origin::Scenario
        | Origin::Plan
        | Origin::OldPlan
        | Origin::Events
        | Origin::Proof => explain_text(rt, files, told, page),
        Origin::Tape | Origin::KeptPlan => explain_tape(rt, files, told, page),
        Origin::Command | Origin::Input | Origin::Output => put_sentence(told, page),
    }
}
