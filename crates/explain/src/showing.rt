//! A line of a text with a mark under a place.
use crate::lines::Line;
use crate::page::{Page, columns_of};
use crate::spans::{Span, ends_with_return};

/// So many columns are shown before a place, and so many in all.
const BEFORE: usize = 44;

const ALL: usize = 72;

/// Shows the line, cut around the place where it is long, and marks the place. A place behind the
/// line is marked where it would be.
pub(crate) fn show_line(page: &mut Page, line: &Line, place: Span) {
    let bytes = shown_part(line, place);
    let start = start_of_window(bytes, place.from);
    let end = end_of_window(bytes, start);
    let number = line.number;
    page.begin_frame();
    page.show(format_args!("{number:>5} | "));
    page.end_colour();
    page.say(if start > 0 { ".." } else { "" });
    let shown = Span {
        from: start,
        upto: end,
    };
    for byte in shown.of(bytes) {
        page.show_byte(*byte);
    }
    page.say(if end < bytes.len() { "..\n" } else { "\n" });
    put_mark(page, bytes, shown, place);
}

/// The line without a CR at its end, unless that is the place.
fn shown_part(line: &Line, place: Span) -> &[u8] {
    let bytes = line.bytes();
    if ends_with_return(bytes) && place.upto < bytes.len() {
        let upto = bytes.len().saturating_sub(1);
        Span { from: 0, upto }.of(bytes)
    } else {
        bytes
    }
}

/// Puts the line with the mark.
fn put_mark(page: &mut Page, bytes: &[u8], shown: Span, place: Span) {
    let before = Span {
        from: shown.from,
        upto: place.from,
    };
    let marked = Span {
        from: place.from,
        upto: place.upto.min(shown.upto),
    };
    page.begin_frame();
    page.say("      | ");
    page.end_colour();
    page.say(if shown.from > 0 { "  " } else { "" });
    page.repeat(b' ', columns(before.of(bytes)));
    page.begin_mark();
    page.repeat(b'^', columns(marked.of(bytes)).max(1));
    page.end_colour();
    page.say("\n");
}

/// In how many columns bytes are shown.
fn columns(bytes: &[u8]) -> usize {
    let mut count = 0usize;
    for byte in bytes {
        count = count.saturating_add(columns_of(*byte));
    }
    count
}

/// Where what is shown begins.
fn start_of_window(bytes: &[u8], place: usize) -> usize {
    let before = Span {
        from: 0,
        upto: place,
    };
    let mut start = place.min(bytes.len());
    let mut room = BEFORE;
    for byte in before.of(bytes).iter().rev() {
        let wanted = columns_of(*byte);
        if wanted > room {
            break;
        }
        room = room.saturating_sub(wanted);
        start = start.saturating_sub(1);
    }
    start
}

/// Where it ends.
fn end_of_window(bytes: &[u8], start: usize) -> usize {
    let rest = Span {
        from: start,
        upto: bytes.len(),
    };
    let mut end = start;
    let mut room = ALL;
    for byte in rest.of(bytes) {
        let wanted = columns_of(*byte);
        if wanted > room {
            break;
        }
        room = room.saturating_sub(wanted);
        end = end.saturating_add(1);
    }
    end
}
