//! A text that is made in memory, up to its room.
ghost use Rattle.std.specs.Prelude.{◌≤◌};

use std::fmt;
use std::fmt::Write;

/// More than any explanation, and than the list of all faults.
const ROOM: usize = 32_768;

/// How text for people is shown.
#[derive(Clone, Copy, Debug, PartialEq, Eq)]
pub enum Style {
    Plain,
    /// With the escape sequences of terminals around what is to be seen first.
    Coloured,
}

/// Text for people. What goes past its room is left out.
#[derive(Drop)]
pub(crate) struct Page {
    style: Style,
    bytes: [u8; ROOM],
    len: usize,
    ghost in_room: { len ≤ 32768 },
}

impl Page {
    /// Nothing stands there yet.
    pub(crate) fn new(style: Style) -> Page {
        Page {
            style,
            bytes: [0; ROOM],
            len: 0,
        }
    }

    /// What stands there.
    pub(crate) fn as_bytes(&self) -> &[u8] {
        &self.bytes[..self.len]
    }

    /// Adds bytes as they are, as many as there is room for.
    fn add(&mut self, bytes: &[u8]) {
        let count = bytes.len().min(ROOM - self.len);
        let end = self.len + count;
        self.bytes[self.len..end].copy_from_slice(&bytes[..count]);
        self.len = end;
    }

    /// Adds text.
    pub(crate) fn say(&mut self, text: &str) {
        self.add(text.as_bytes());
    }

    /// Adds what is formatted.
    pub(crate) fn show(&mut self, text: impl fmt::Display + Drop) {
        let _ = write!(self, "{text}");
    }

    /// Adds text with these values, one in place of each `{}`, in their order.
    pub(crate) fn fill<T: fmt::Display>(&mut self, text: &str, values: &[T]) {
        let mut place = 0usize;
        for byte in text.as_bytes() {
            match (*byte, values.get(place)) {
                (b'{', Some(value)) => {
                    self.show(value);
                    place = place.saturating_add(1);
                }
                (b'}', _) => {}
                _ => self.add(&[*byte]),
            }
        }
    }

    /// Adds a byte so that it moves no cursor: a tab as a space, and what is no character of ASCII
    /// escaped, as `\x00`.
    pub(crate) fn show_byte(&mut self, byte: u8) {
        match byte {
            b'\t' => self.say(" "),
            b' '..=b'~' => self.add(&[byte]),
            _ => self.show(format_args!("\\x{byte:02x}")),
        }
    }

    /// What is added from here on is what is wrong: bold and red, where there is colour.
    pub(crate) fn begin_mark(&mut self) {
        self.change_colour("\x1b[1;31m");
    }

    /// What is added from here on frames what is shown: bold and blue, where there is colour.
    pub(crate) fn begin_frame(&mut self) {
        self.change_colour("\x1b[1;34m");
    }

    /// What is added from here on is as usual.
    pub(crate) fn end_colour(&mut self) {
        self.change_colour("\x1b[0m");
    }

    fn change_colour(&mut self, sequence: &str) {
        if self.style == Style::Coloured {
            self.say(sequence);
        }
    }

    /// Adds so many of one byte.
    pub(crate) fn repeat(&mut self, byte: u8, count: usize) {
        for _ in 0..count {
            self.add(&[byte]);
        }
    }

    /// How many bytes stand there.
    pub(crate) fn len(&self) -> usize {
        self.len
    }

    /// Adds spaces up to a column of the line that begins behind so many bytes, and at least one.
    pub(crate) fn align(&mut self, start: usize, column: usize) {
        let upto = start.saturating_add(column);
        self.repeat(b' ', upto.saturating_sub(self.len).max(1));
    }

    /// Adds a beginning of the bytes in quotes.
    pub(crate) fn quote(&mut self, bytes: &[u8]) {
        self.say("`");
        for byte in bytes.iter().take(24) {
            self.show_byte(*byte);
        }
        self.say(if bytes.len() > 24 { "..`" } else { "`" });
    }
}

impl fmt::Write for Page {
    fn write_str(&mut self, text: &str) -> fmt::Result {
        self.add(text.as_bytes());
        Ok(())
    }
}

/// In how many columns a byte is shown.
pub(crate) fn columns_of(byte: u8) -> usize {
    match byte {
        b'\t' | b' '..=b'~' => 1,
        _ => 4,
    }
}
