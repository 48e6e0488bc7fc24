//! What a text begins like.
use crate::files::{NamedFile, format_name, shown_path};
use crate::lines::{Line, LineEnd};
use crate::page::Page;
use crate::spans::content;
use std::rt::Files;
use text_io::Origin;

/// What a text begins like that may be none of its format.
#[derive(Clone, Copy)]
enum Beginning {
    Of(Origin),
    Marked,
    Returns,
    Wide,
    Packed(&'static str, &'static str),
    Json,
    Markup,
    Nothing,
    Unknown,
}

/// Says what the text begins like, where that is none of the format that it is read as. `line` is
/// its first. The answer is whether that says all: its lines are none then.
pub(crate) fn put_beginning<R: Files>(
    rt: &R,
    files: &[NamedFile<'_>],
    file: NamedFile<'_>,
    line: &Line,
    page: &mut Page,
) -> bool {
    if !line.is_read() {
        return false;
    }
    match beginning_of(line) {
        Beginning::Of(kind) => {
            if !is_format_of(kind, file.origin) {
                put_other_format(rt, files, file, kind, page);
            }
            false
        }
        other => {
            put_disguise(other, page);
            matches!(other, Beginning::Wide | Beginning::Packed(..))
        }
    }
}

fn beginning_of(line: &Line) -> Beginning {
    let bytes = line.bytes();
    if line.end == LineEnd::Missing {
        return Beginning::Nothing;
    }
    if bytes.starts_with(&[0xef, 0xbb, 0xbf]) {
        return Beginning::Marked;
    }
    if is_wide(bytes) {
        return Beginning::Wide;
    }
    match packer_of(bytes) {
        Some((name, command)) => Beginning::Packed(name, command),
        None if content(bytes).of(bytes).contains(&b'\r') => Beginning::Returns,
        None => format_of(bytes),
    }
}

/// Whether the bytes look like characters of two bytes each.
fn is_wide(bytes: &[u8]) -> bool {
    matches!(bytes, [0xff, 0xfe, ..] | [0xfe, 0xff, ..] | [_, 0, ..])
}

/// The program that packed these bytes, and what unpacks them.
fn packer_of(bytes: &[u8]) -> Option<(&'static str, &'static str)> {
    if bytes.starts_with(&[0x1f, 0x8b]) {
        Some(("gzip", "gunzip"))
    } else if bytes.starts_with(b"BZh") {
        Some(("bzip2", "bunzip2"))
    } else if bytes.starts_with(&[0xfd, b'7', b'z', b'X', b'Z']) {
        Some(("xz", "unxz"))
    } else if bytes.starts_with(&[0x28, 0xb5, 0x2f, 0xfd]) {
        Some(("zstd", "unzstd"))
    } else if bytes.starts_with(&[b'P', b'K', 3, 4]) {
        Some(("zip", "unzip"))
    } else {
        None
    }
}

/// What the first line of a text begins with, and what the text looks like then.
static FORMATS: [(&str, Beginning); 12] = [
    ("mapf-plan", Beginning::Of(Origin::Plan)),
    ("mapf-proof", Beginning::Of(Origin::Proof)),
    ("mapf-events", Beginning::Of(Origin::Events)),
    ("type ", Beginning::Of(Origin::Map)),
    ("type\t", Beginning::Of(Origin::Map)),
    ("version ", Beginning::Of(Origin::Scenario)),
    ("version\t", Beginning::Of(Origin::Scenario)),
    ("\x50\x01", Beginning::Of(Origin::Tape)),
    ("\x50\x02", Beginning::Of(Origin::Tape)),
    ("{", Beginning::Json),
    ("[", Beginning::Json),
    ("<", Beginning::Markup),
];

fn format_of(bytes: &[u8]) -> Beginning {
    let text = content(bytes).of(bytes);
    for (first, beginning) in &FORMATS {
        if text.starts_with(first.as_bytes()) {
            return *beginning;
        }
    }
    Beginning::Unknown
}

/// Says what is no text of ours.
fn put_disguise(beginning: Beginning, page: &mut Page) {
    match beginning {
        Beginning::Marked => page.say(
            "The file begins with a byte order mark (ef bb bf), which is part of no format: `tail -c +4` leaves it out.\n",
        ),
        Beginning::Wide => page.say(
            "The file looks like UTF-16, two bytes a character: `iconv -f UTF-16 -t UTF-8` makes it plain text.\n",
        ),
        Beginning::Packed(name, command) => {
            page.fill(
                "The file is packed by {}: unpack it first, with `{}`.\n",
                &[name, command],
            );
        }
        Beginning::Returns => {
            page.say(
                "The file has a CR inside its first line: where CR alone ends its lines, `tr '\\r' '\\n'` makes LFs of them.\n",
            );
        }
        Beginning::Json => page.say("The file begins like JSON.\n"),
        Beginning::Markup => page.say(
            "The file begins like HTML or XML: perhaps a page was saved in place of the file.\n",
        ),
        Beginning::Nothing => page.say("The file is empty.\n"),
        Beginning::Of(_) | Beginning::Unknown => {}
    }
}

/// Says which other format the text begins like, and which file may stand in its place.
fn put_other_format<R: Files>(
    rt: &R,
    files: &[NamedFile<'_>],
    file: NamedFile<'_>,
    kind: Origin,
    page: &mut Page,
) {
    page.fill("The file begins like {}", &[format_name(kind)]);
    if let Some(other) = exchanged_with(rt, files, file) {
        page.fill(", and {} like ", &[shown_path(other)]);
        page.fill(
            "{}: the files may be in the wrong order",
            &[format_name(file.origin)],
        );
    }
    page.say(".\n");
}

/// The first file that is read as something else and begins like what this one is read as.
fn exchanged_with<'a, R: Files>(
    rt: &R,
    files: &[NamedFile<'a>],
    file: NamedFile<'_>,
) -> Option<NamedFile<'a>> {
    for other in files {
        if !is_format_of(other.origin, file.origin) && begins_like(rt, other.path, file.origin) {
            return Some(*other);
        }
    }
    None
}

/// Whether a file of this origin is read as one of the format of that origin.
fn is_format_of(format: Origin, origin: Origin) -> bool {
    format_name(format) == format_name(origin)
}

fn begins_like<R: Files>(rt: &R, path: &str, origin: Origin) -> bool {
    let mut line = Line::new();
    line.find(rt, path, 1);
    line.is_read()
        && matches!(beginning_of(&line), Beginning::Of(found) if is_format_of(found, origin))
}
