//! A line of a text that is read once more.
use crate::files::open_again;
use std::io::Read;
use std::rt::Files;
use text_io::{Counted, PIECE, Source, Stop, TakenLine};

/// No line of a right text is longer.
const LONGEST: usize = 65_664;

/// How a line came to its end.
#[derive(Clone, Copy, PartialEq, Eq)]
pub(crate) enum LineEnd {
    LineFeed,
    EndOfText,
    /// There is more of it than is kept.
    Longer,
    /// There is no such line.
    Missing,
    /// The text could not be read up to it.
    Unread,
}

/// A line, with its number from 1 on.
#[derive(Drop)]
pub(crate) struct Line {
    room: [u8; LONGEST],
    len: usize,
    pub(crate) end: LineEnd,
    pub(crate) number: u64,
}

impl Line {
    /// None is read yet.
    pub(crate) fn new() -> Line {
        Line {
            room: [0; LONGEST],
            len: 0,
            end: LineEnd::Unread,
            number: 0,
        }
    }

    /// Its bytes without the LF, as far as they are kept.
    pub(crate) fn bytes(&self) -> &[u8] {
        &self.room[..self.len.min(LONGEST)]
    }

    /// Whether there is anything of it.
    pub(crate) fn is_there(&self) -> bool {
        matches!(self.end, LineEnd::LineFeed | LineEnd::Longer) || self.len > 0
    }

    /// Whether the text could be read up to it.
    pub(crate) fn is_read(&self) -> bool {
        self.end != LineEnd::Unread
    }

    /// Takes the next line of a text.
    pub(crate) fn take<F: Read>(&mut self, source: &mut Source<'_, F, PIECE>) {
        self.number = self.number.saturating_add(1);
        let (len, end) = match source.take_line(&mut self.room) {
            TakenLine::WithLineFeed(count) => (count, LineEnd::LineFeed),
            TakenLine::AtEnd(0) => (0, LineEnd::Missing),
            TakenLine::AtEnd(count) => (count, LineEnd::EndOfText),
            TakenLine::TooLong => (LONGEST, LineEnd::Longer),
            TakenLine::Failed => (0, LineEnd::Unread),
        };
        self.len = len;
        self.end = end;
        if end == LineEnd::Longer {
            let _ = source.pass_line();
        }
    }

    /// Finds the line with this number in a file.
    pub(crate) fn find<R: Files>(&mut self, rt: &R, path: &str, number: u64) {
        self.len = 0;
        self.number = number;
        self.end = LineEnd::Unread;
        if let Some(file) = open_again(rt, path) {
            let mut reader = Counted::new(file);
            let mut source = Source::new(&mut reader);
            self.take_numbered(&mut source, number);
        }
    }

    fn take_numbered<F: Read>(&mut self, source: &mut Source<'_, F, PIECE>, number: u64) {
        self.number = number.saturating_sub(1);
        match pass_lines(source, self.number) {
            Ok(()) => self.take(source),
            Err(stop) => {
                self.number = number;
                self.end = match stop {
                    Stop::End => LineEnd::Missing,
                    Stop::Failure => LineEnd::Unread,
                };
            }
        }
    }
}

/// Passes so many lines.
pub(crate) fn pass_lines<F: Read>(
    source: &mut Source<'_, F, PIECE>,
    count: u64,
) -> Result<(), Stop> {
    for _ in 0..count {
        source.pass_line()?;
    }
    Ok(())
}
