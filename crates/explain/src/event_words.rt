//! The faults of a list of events.
use crate::lines::Line;
use crate::page::Page;
use crate::showing::show_line;
use crate::spans::{Parts, Span, content, is_number_upto};
use crate::told::Told;
use text_io::FaultName;

/// Explains a fault of a list of events, at this line.
pub(crate) fn explain_events(told: &Told<'_>, line: &Line, page: &mut Page) {
    let bytes = line.bytes();
    let (place, words) = match told.fault {
        FaultName::NoHeader => (
            content(bytes),
            "Line 1 must be `mapf-events 1` or `mapf-events 2`, ended by an LF.\n",
        ),
        FaultName::Unfinished => (
            Span::before(bytes.len()),
            "The text ends inside this line: an LF ends every line, the last one too.\n",
        ),
        _ if bytes.len() > 64 => (
            Span { from: 64, upto: 65 },
            "A line has at most 64 bytes before its LF.\n",
        ),
        _ => {
            bad_event(line, page);
            return;
        }
    };
    show_line(page, line, place);
    page.say(words);
}

/// An event's first word, and what its line is made of.
static FORMS: [(&str, &str); 6] = [
    ("start", "start I"),
    ("finish", "finish I"),
    ("say", "say I"),
    ("deliver", "deliver I M"),
    ("restart", "restart I"),
    ("tear", "tear I N"),
];

/// What the line of an event with this first word is made of.
fn form_of(word: &[u8]) -> Option<&'static str> {
    for (first, form) in &FORMS {
        if first.as_bytes() == word {
            return Some(*form);
        }
    }
    None
}

fn bad_event(line: &Line, page: &mut Page) {
    let bytes = line.bytes();
    let parts = Parts::at_spaces(bytes);
    let first = parts.get(0).unwrap_or(content(bytes));
    match form_of(first.of(bytes)) {
        None => {
            show_line(page, line, first);
            page.quote(first.of(bytes));
            page.say(
                " is no event. An event is one of `start I`, `finish I`, `say I`, `deliver I M`, `restart I` and `tear I N`,\nwith the numbers of an agent, a message and bytes.\n",
            );
        }
        Some(form) => {
            show_line(page, line, faulty_part(bytes, parts));
            put_form(form, page);
        }
    }
}

/// Puts how an event is written.
fn put_form(form: &str, page: &mut Page) {
    page.fill(
        "This event is written `{}`: one space between each two parts, and numbers in digits alone, without zeros in front",
        &[form],
    );
    page.say(if form.contains(" M") {
        ",\nagents up to 4294967295 and messages up to 18446744073709551615.\n"
    } else {
        ",\nup to 4294967295.\n"
    });
}

/// The first part that is no number, or what is missing or too much at the end.
fn faulty_part(bytes: &[u8], parts: Parts) -> Span {
    let is_delivery = bytes.starts_with(b"deliver");
    let wanted = if is_delivery || bytes.starts_with(b"tear") {
        3
    } else {
        2
    };
    for place in 1..wanted {
        let most = if is_delivery && place == 2 {
            u64::MAX
        } else {
            4_294_967_295
        };
        match parts.get(place) {
            None => return Span::before(bytes.len()),
            Some(span) if !is_number_upto(span.of(bytes), most) => return span,
            Some(_) => {}
        }
    }
    let from = parts.get(wanted).map_or(bytes.len(), |extra| extra.from);
    Span {
        from,
        upto: bytes.len(),
    }
}
