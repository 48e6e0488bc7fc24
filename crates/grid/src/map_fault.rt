//! Why a map could not be read.
ghost use Rattle.std.specs.Prelude.{◌≡◌, Some};
ghost use Rattle.text_io.specs.FaultWords.{words_of, words_text};
ghost use Rattle.grid.specs.MapFault.{map_fault_words};
ghost use Rattle.grid.specs.declared.map_fault.MapFault.TheVariants.{OutOfMemory as out_of_memory};

use std::alloc::AllocError;
use std::fmt;
use text_io::{Failure, FaultName, FaultWords, Origin};
use thiserror::Error;

/// The first fault of a map text, with its line and column from 1 on, or why the text was not read
/// to that point.
#[derive(Clone, Copy, Debug, PartialEq, Eq, Error)]
pub enum MapFault {
    BadHeader(u64),
    BadNumber(u64),
    TooLarge(u64),
    BadTerrain(u64, u32),
    ShortRow(u64),
    LongRow(u64),
    MissingRows(u64),
    TextAfter(u64),
    ReadFailed,
    OutOfMemory,
}

impl MapFault {
    /// The words in which it is told.
    pub fn words(self) -> FaultWords
        ensures { words_of result ≡ map_fault_words self }
    {
        let words = match self {
            MapFault::BadHeader(line) => FaultWords::new(FaultName::BadHeader, &[line]),
            MapFault::BadNumber(line) => FaultWords::new(FaultName::BadNumber, &[line]),
            MapFault::TooLarge(line) => FaultWords::new(FaultName::TooLarge, &[line]),
            MapFault::BadTerrain(line, column) => {
                FaultWords::new(FaultName::BadTerrain, &[line, u64::from(column)])
            }
            MapFault::ShortRow(line) => FaultWords::new(FaultName::ShortRow, &[line]),
            MapFault::LongRow(line) => FaultWords::new(FaultName::LongRow, &[line]),
            MapFault::MissingRows(line) => FaultWords::new(FaultName::MissingRows, &[line]),
            MapFault::TextAfter(line) => FaultWords::new(FaultName::TextAfter, &[line]),
            MapFault::ReadFailed => Failure::ReadFailed.words(),
            MapFault::OutOfMemory => Failure::OutOfMemory.words(),
        };
        words.of(Origin::Map)
    }
}

impl fmt::Display for MapFault {
    ghost output = { λ fault. Some (words_text (map_fault_words fault)) };

    fn fmt<W: fmt::Write>(&self, f: &mut fmt::Formatter<W>) -> fmt::Result {
        self.words().fmt(f)
    }
}

impl From<AllocError> for MapFault {
    ghost from_gives = { λ _ e. e ≡ out_of_memory };

    fn from(_e: AllocError) -> MapFault {
        MapFault::OutOfMemory
    }
}
