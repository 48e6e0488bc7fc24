//! The faults of a plan's text.
use crate::lines::{Line, LineEnd};
use crate::page::Page;
use crate::showing::show_line;
use crate::spans::{Parts, Span, content, is_number_upto, number};
use crate::told::Told;
use std::rt::Files;
use text_io::FaultName;

/// The line of agent 0.
pub(crate) const FIRST_AGENT: u64 = 4;

/// How many agents the third line announces.
pub(crate) fn announced_agents<R: Files>(rt: &R, path: &str) -> Option<u64> {
    let mut line = Line::new();
    line.find(rt, path, 3);
    number(line.bytes().strip_prefix(b"agents ".as_slice())?)
}

/// The plan's number.
pub(crate) fn plan_number<R: Files>(rt: &R, path: &str) -> Option<u64> {
    let mut line = Line::new();
    line.find(rt, path, 2);
    number(line.bytes().strip_prefix(b"number ".as_slice())?)
}

/// Explains a fault of a plan's text, at this line.
pub(crate) fn explain_plan_text<R: Files>(
    rt: &R,
    path: &str,
    told: &Told<'_>,
    line: &Line,
    page: &mut Page,
) {
    match told.fault {
        FaultName::BadHeader => bad_header(line, page),
        FaultName::BadNumber => bad_number(line, page),
        FaultName::BadAgent => bad_agent(line, page),
        FaultName::BadAct => bad_act(told.number(1), line, page),
        FaultName::TooMany => too_many(line, page),
        FaultName::Unfinished => unfinished(announced_agents(rt, path), line, page),
        _ => text_after(announced_agents(rt, path), line, page),
    }
}

/// What is said of a first line that begins no plan.
const FIRST_LINE: &str =
    "Line 1 must be `mapf-plan 1`. `mapf-convert` (in a checkout `tools/convert.py`) makes a plan of what many planners write.\n";

fn bad_header(line: &Line, page: &mut Page) {
    show_line(page, line, content(line.bytes()));
    page.say(match line.number {
        1 => FIRST_LINE,
        2 => "Line 2 must be `number`, one space and the plan's number, as `number 7`.\n",
        _ => "Line 3 must be `agents`, one space and how many agents there are, as `agents 2`.\n",
    });
}

/// The first part of an agent's line that is to be a number up to 65,535 and is none, else what
/// follows the first word.
fn faulty_number(line: &Line) -> Span {
    let parts = Parts::at_spaces(line.bytes());
    let first = parts.get(1).unwrap_or(content(line.bytes()));
    if line.number >= FIRST_AGENT && is_number_upto(first.of(line.bytes()), 65_535) {
        return parts.get(2).unwrap_or(first);
    }
    let upto = if line.number < FIRST_AGENT {
        line.bytes().len()
    } else {
        first.upto
    };
    Span {
        from: first.from,
        upto,
    }
}

fn bad_number(line: &Line, page: &mut Page) {
    let span = faulty_number(line);
    show_line(page, line, span);
    page.quote(span.of(line.bytes()));
    page.say(match line.number {
        2 => " must be a number up to 4294967295",
        3 => " must be a number up to 10000",
        _ => " must be a column or a row up to 65535",
    });
    page.say(": digits alone, without zeros in front.\n");
}

fn bad_agent(line: &Line, page: &mut Page) {
    let (place, about) = misplaced(line.bytes());
    show_line(page, line, place);
    let agent = line.number.saturating_sub(FIRST_AGENT);
    page.fill(
        "The line of agent {} must be `agent`, the column and the row of its start, and its acts, as `agent 1 0 e-`.\n",
        &[agent],
    );
    page.say(about);
}

/// Where the line of an agent isn't cut as it must be, and what is said of that.
fn misplaced(bytes: &[u8]) -> (Span, &'static str) {
    let parts = Parts::at_spaces(bytes);
    let upto = bytes.len();
    if !bytes.starts_with(b"agent ") {
        (
            parts.get(0).unwrap_or(content(bytes)),
            "It doesn't begin with `agent` and a space.\n",
        )
    } else if let Some(empty) = parts.first_empty() {
        (
            empty,
            "One space stands between each two parts, and none at the end.\n",
        )
    } else if parts.count() < 4 {
        (
            Span::before(upto),
            "Parts are missing: where an agent has no act, `=` stands for them.\n",
        )
    } else {
        let from = parts.get(4).map_or(upto, |extra| extra.from);
        (
            Span { from, upto },
            "No space stands between the acts or behind them.\n",
        )
    }
}

fn bad_act(column: u64, line: &Line, page: &mut Page) {
    let place = Span::at_column(column);
    let given = place.of(line.bytes());
    show_line(page, line, place);
    page.quote(given);
    page.say(
        " is no act. An act is one of n e s w (a move to the north, east, south or west) and - (a wait);\n`=` alone stands for no acts.\n",
    );
    page.say(act_hint(given.first().copied()));
}

/// What is said of a character that is often written in place of an act.
fn act_hint(character: Option<u8>) -> &'static str {
    match character {
        Some(b'N' | b'E' | b'S' | b'W') => "Acts are written in small letters.\n",
        Some(b'u' | b'd' | b'l' | b'r' | b'U' | b'D' | b'L' | b'R') =>
            "Up is n, down is s, left is w, right is e.\n",
        _ => "",
    }
}

fn too_many(line: &Line, page: &mut Page) {
    let bytes = line.bytes();
    if line.end == LineEnd::Longer || bytes.len() > 65_553 {
        show_line(page, line, Span::at_column(65_554));
        page.say("A line has at most 65553 bytes before its LF.\n");
        page.say(first_line_hint(line));
    } else if line.number < FIRST_AGENT {
        show_line(page, line, content(bytes));
        page.say("A plan has at most 10000 agents.\n");
    } else {
        too_many_acts(line, page);
    }
}

fn too_many_acts(line: &Line, page: &mut Page) {
    let bytes = line.bytes();
    let acts = Parts::at_spaces(bytes).get(3).unwrap_or(content(bytes));
    show_line(page, line, acts);
    let count = acts.upto.saturating_sub(acts.from);
    page.fill(
        "This agent has {} acts. An agent has at most 65535, and all agents together have at most 16777216.\n",
        &[count],
    );
}

fn unfinished(agents: Option<u64>, line: &Line, page: &mut Page) {
    if line.is_there() {
        show_line(page, line, Span::before(line.bytes().len()));
        page.say("The text ends inside this line: an LF ends every line, the last one too.\n");
    }
    put_missing(agents, line.number, page);
    page.say(first_line_hint(line));
}

/// What is said of a text that ends or grows too long in its first line, unless that begins a plan.
fn first_line_hint(line: &Line) -> &'static str {
    if line.number == 1 && !line.bytes().is_empty() && !line.bytes().starts_with(b"mapf-plan") {
        FIRST_LINE
    } else {
        ""
    }
}

/// Says that lines from this number on are missing.
fn put_missing(agents: Option<u64>, number: u64, page: &mut Page) {
    match agents {
        Some(agents) if number >= FIRST_AGENT => {
            let count = number.saturating_sub(FIRST_AGENT);
            page.fill(
                "Line 3 announces {} agents, and there are whole lines of {}.\n",
                &[agents, count],
            );
        }
        _ => page.fill(
            "A plan has three lines and then one for each agent: line {} is missing, or not ended.\n",
            &[number],
        ),
    }
}

fn text_after(agents: Option<u64>, line: &Line, page: &mut Page) {
    show_line(page, line, content(line.bytes()));
    let agents = agents.unwrap_or(0);
    page.fill(
        "Line 3 announces {} agents, and nothing may follow their lines, not even an empty line.\n",
        &[agents],
    );
}
