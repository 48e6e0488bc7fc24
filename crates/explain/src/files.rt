//! The files of a command.
use std::fs;
use std::rt::Files;
use text_io::Origin;

/// A file that a command names, by which faults are its own.
#[derive(Clone, Copy, Debug)]
pub struct NamedFile<'a> {
    pub origin: Origin,
    pub path: &'a str,
}

impl NamedFile<'_> {
    /// The line of the file that has this line of its plan. In the file of a kept plan another line
    /// stands first.
    pub(crate) fn plan_line(self, number: u64) -> u64 {
        match self.origin {
            Origin::KeptPlan => number.saturating_add(1),
            _ => number,
        }
    }
}

/// What a file is read as, as in `read as a map`.
pub(crate) fn format_name(origin: Origin) -> &'static str {
    match origin {
        Origin::Map => "a map",
        Origin::Scenario => "a scenario",
        Origin::Plan | Origin::OldPlan => "a plan",
        Origin::Events => "a list of events",
        Origin::Proof => "a proof",
        Origin::Tape => "a tape",
        Origin::KeptPlan => "the plan of a tape",
        Origin::Command | Origin::Input | Origin::Output => "a command",
    }
}

/// Whether a file of this kind is written too.
pub(crate) fn is_written(origin: Origin) -> bool {
    matches!(origin, Origin::Tape | Origin::KeptPlan)
}

/// The file of this kind that a command names.
pub(crate) fn file_of<'a>(files: &[NamedFile<'a>], origin: Origin) -> Option<NamedFile<'a>> {
    files.iter().find(|file| file.origin == origin).copied()
}

/// The path, or what stands for it.
pub(crate) fn shown_path<'a>(file: NamedFile<'a>) -> &'a str {
    if file.path.is_empty() {
        "standard input"
    } else {
        file.path
    }
}

/// Opens a file once more. What is no file of bytes may wait for ever, and has lost what was read
/// of it: so it is not opened.
pub fn open_again<R: Files>(rt: &R, path: &str) -> Option<R::File> {
    let metadata = fs::metadata(rt, path).ok()?;
    if metadata.is_file() {
        fs::open(rt, path).ok()
    } else {
        None
    }
}
