//! The faults of texts.
use crate::beginning::put_beginning;
use crate::event_words::explain_events;
use crate::files::{NamedFile, file_of, format_name, shown_path};
use crate::lines::Line;
use crate::map_words::explain_map;
use crate::page::Page;
use crate::plan_words::explain_plan_text;
use crate::scen_words::{explain_scenario, find_first_line};
use crate::showing::show_line;
use crate::spans::{Span, ends_with_return};
use crate::table::put_sentence;
use crate::told::Told;
use std::rt::Files;
use text_io::{FaultName, Origin};

/// Explains the fault of a text.
pub(crate) fn explain_text<R: Files>(
    rt: &R,
    files: &[NamedFile<'_>],
    told: &Told<'_>,
    page: &mut Page,
) {
    if let Some(file) = file_of(files, told.origin) {
        let mut line = Line::new();
        find_fault(rt, file.path, told, &mut line);
        put_place(file, told, &line, page);
        if !begins_otherwise(rt, files, file, page) {
            explain_line(rt, file, told, &line, page);
        }
    }
}

/// Says what the text begins like, where that is none of its format. The answer is whether that
/// says all.
fn begins_otherwise<R: Files>(
    rt: &R,
    files: &[NamedFile<'_>],
    file: NamedFile<'_>,
    page: &mut Page,
) -> bool {
    let mut first = Line::new();
    first.find(rt, file.path, 1);
    put_beginning(rt, files, file, &first, page)
}

/// Explains the fault at its line, if that can be read.
fn explain_line<R: Files>(
    rt: &R,
    file: NamedFile<'_>,
    told: &Told<'_>,
    line: &Line,
    page: &mut Page,
) {
    if !line.is_read() {
        page.say("It can't be read once more here, so its line isn't shown.\n");
        put_sentence(told, page);
    } else if !put_line_end(file.origin, told.fault, line, page) {
        explain_format(rt, file, told, line, page);
    }
}

/// Explains what the line breaks of its format.
fn explain_format<R: Files>(
    rt: &R,
    file: NamedFile<'_>,
    told: &Told<'_>,
    line: &Line,
    page: &mut Page,
) {
    match file.origin {
        Origin::Map => explain_map(rt, file.path, told, line, page),
        Origin::Scenario => explain_scenario(told, line, page),
        Origin::Plan | Origin::OldPlan => explain_plan_text(rt, file.path, told, line, page),
        Origin::Events => explain_events(told, line, page),
        Origin::Proof => put_sentence(told, page),
        _ => {}
    }
}

/// Finds the line of the fault.
fn find_fault<R: Files>(rt: &R, path: &str, told: &Told<'_>, line: &mut Line) {
    match told.fault {
        FaultName::NoVersion => find_first_line(rt, path, line),
        FaultName::NoHeader => line.find(rt, path, 1),
        _ => line.find(rt, path, told.number(0)),
    }
}

/// Puts where the fault is, as editors and compilers do.
fn put_place(file: NamedFile<'_>, told: &Told<'_>, line: &Line, page: &mut Page) {
    let (path, name, number) = (shown_path(file), format_name(file.origin), line.number);
    page.say(path);
    if number > 0 {
        page.fill(":{}", &[number]);
    }
    if matches!(told.fault, FaultName::BadTerrain | FaultName::BadAct) {
        page.fill(":{}", &[told.number(1)]);
    }
    page.fill(", read as {}:\n", &[name]);
}

/// Says that the line ends as on Windows, where that is refused. The answer is whether that says
/// all.
fn put_line_end(kind: Origin, fault: FaultName, line: &Line, page: &mut Page) -> bool {
    let bytes = line.bytes();
    if !matches!(
        kind,
        Origin::Plan | Origin::OldPlan | Origin::Events | Origin::Proof
    ) || !ends_with_return(bytes)
    {
        return false;
    }
    let is_all = matches!(fault, FaultName::BadHeader | FaultName::NoHeader);
    if is_all {
        let upto = bytes.len();
        let from = upto.saturating_sub(1);
        show_line(page, line, Span { from, upto });
    }
    page.say(
        "The line ends with CR LF, and must end with LF alone: `sed -i 's/\\r$//'` takes the CRs off a file.\n",
    );
    is_all
}
