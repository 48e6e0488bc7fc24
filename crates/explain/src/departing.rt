//! Why a plan doesn't go on from another.
use crate::files::{NamedFile, file_of, shown_path};
use crate::lines::Line;
use crate::page::Page;
use crate::plan_words::FIRST_AGENT;
use crate::showing::show_line;
use crate::spans::{Parts, Span, content};
use crate::table::put_sentence;
use crate::told::Told;
use crate::walks::{Course, Place};
use std::rt::Files;
use text_io::{FaultName, Origin};

/// Explains what differs between two plans, of which the second was to go on from the first.
pub(crate) fn explain_departing<R: Files>(
    rt: &R,
    files: &[NamedFile<'_>],
    told: &Told<'_>,
    page: &mut Page,
) {
    let old = file_of(files, Origin::OldPlan).or(file_of(files, Origin::KeptPlan));
    let (Some(old), Some(new)) = (old, file_of(files, Origin::Plan)) else {
        return;
    };
    let plans = [old, new];
    let is_told = match told.fault {
        FaultName::OtherNumber => put_heads(rt, plans, 2, page),
        FaultName::OtherCount => put_heads(rt, plans, 3, page),
        _ => put_departure(rt, plans, told, page),
    };
    if !is_told {
        put_sentence(told, page);
    }
}

/// Shows a line of both plans, with what stands behind its first word. That doesn't say all.
fn put_heads<R: Files>(rt: &R, plans: [NamedFile<'_>; 2], number: u64, page: &mut Page) -> bool {
    for plan in plans {
        let mut line = Line::new();
        line.find(rt, plan.path, plan.plan_line(number));
        put_title(plan, &line, page);
        if line.is_read() {
            let place = Parts::at_spaces(line.bytes()).get(1);
            show_line(page, &line, place.unwrap_or(content(line.bytes())));
        }
    }
    false
}

/// Shows where an agent departs, and answers whether its lines could be read.
fn put_departure<R: Files>(
    rt: &R,
    plans: [NamedFile<'_>; 2],
    told: &Told<'_>,
    page: &mut Page,
) -> bool {
    let [old, new] = plans;
    let (agent, time) = (told.number(0), told.number(1));
    let was = put_agent(rt, old, agent, time, page);
    let is = put_agent(rt, new, agent, time, page);
    match (was, is) {
        (Some(was), Some(is)) => {
            put_places(agent, time, [was, is], page);
            true
        }
        _ => false,
    }
}

/// Shows the line of an agent, with what leads it to where it is at a time, and answers where that
/// is.
fn put_agent<R: Files>(
    rt: &R,
    plan: NamedFile<'_>,
    agent: u64,
    time: u64,
    page: &mut Page,
) -> Option<Place> {
    let mut line = Line::new();
    let number = plan.plan_line(agent.saturating_add(FIRST_AGENT));
    line.find(rt, plan.path, number);
    put_title(plan, &line, page);
    let course = Course::read(&line)?;
    show_line(page, &line, last_before(line.bytes(), time)?);
    Some(course.place(time))
}

fn put_title(plan: NamedFile<'_>, line: &Line, page: &mut Page) {
    page.say(shown_path(plan));
    page.fill(":{}:\n", &[line.number]);
    if !line.is_read() {
        page.say("It can't be read once more here, so its line isn't shown.\n");
    }
}

/// The last act before a time in an agent's line, or where it would be; the start where there is
/// none.
fn last_before(line: &[u8], time: u64) -> Option<Span> {
    let parts = Parts::at_spaces(line);
    let Some(step) = time.checked_sub(1) else {
        let Span { from, .. } = parts.get(1)?;
        let Span { upto, .. } = parts.get(2)?;
        return Some(Span { from, upto });
    };
    let acts = parts.get(3)?;
    let step = usize::try_from(step).unwrap_or(usize::MAX);
    let from = acts.from.saturating_add(step).min(acts.upto);
    Some(Span {
        from,
        upto: from.saturating_add(1).min(acts.upto),
    })
}

fn put_places(agent: u64, time: u64, places: [Place; 2], page: &mut Page) {
    let [was, is] = places;
    page.fill("At time {} agent {} is in column ", &[time, agent]);
    page.fill(
        "{}, row {} by the old plan, and in column ",
        &[was.x, was.y],
    );
    page.fill("{}, row {} by the new one.\n", &[is.x, is.y]);
}
