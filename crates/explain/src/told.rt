//! A fault that was told.
use text_io::{FaultName, FaultWords, Origin};

/// A fault with its numbers, and what it is of.
#[derive(Clone, Copy)]
pub(crate) struct Told<'a> {
    pub(crate) fault: FaultName,
    pub(crate) origin: Origin,
    words: &'a FaultWords,
}

impl<'a> Told<'a> {
    pub(crate) fn of(words: &'a FaultWords) -> Told<'a> {
        Told {
            fault: words.fault(),
            origin: words.origin(),
            words,
        }
    }

    /// The number with this place, from 0, or 0 where there is none.
    pub(crate) fn number(&self, place: usize) -> u64 {
        self.words.numbers().get(place).copied().unwrap_or(0)
    }
}
