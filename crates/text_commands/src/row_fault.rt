//! Why a row of a scenario has no answer.
ghost use Rattle.std.specs.Prelude.{◌≡◌, Some};
ghost use Rattle.text_io.specs.FaultWords.{words_of, words_text};
ghost use Rattle.text_commands.specs.FaultWords.{row_fault_words};
ghost use Rattle.text_commands.specs.declared.row_fault.RowFault.TheVariants as row_fault;

use grid::MapFault;
use scenario::ScenFault;
use std::fmt;
use text_io::{Failure, FaultName, FaultWords};
use thiserror::Error;
use walks::CertFault;

/// Why a row has no answer.
#[derive(Clone, Copy, Debug, PartialEq, Eq, Error)]
pub(crate) enum RowFault {
    /// The map could not be read.
    Map(MapFault),
    /// The scenario could not be read.
    Scen(ScenFault),
    /// The scenario has no row with the number.
    NoSuchRow,
    /// The row with this number is for a map of another size.
    SizeDiffers(u32),
    /// The search was refused memory.
    OutOfMemory,
    /// What the search proposed proves nothing.
    Certificate(CertFault),
}

impl RowFault {
    /// The words in which it is told.
    pub(crate) fn words(self) -> FaultWords
        ensures { words_of result ≡ row_fault_words self }
    {
        match self {
            RowFault::Map(fault) => fault.words(),
            RowFault::Scen(fault) => fault.words(),
            RowFault::NoSuchRow => FaultWords::new(FaultName::NoSuchRow, &[]),
            RowFault::SizeDiffers(row) => FaultWords::new(
                FaultName::SizeDiffers,
                &[u64::from(row)],
            ),
            RowFault::OutOfMemory => Failure::OutOfMemory.words(),
            RowFault::Certificate(fault) => fault.words(),
        }
    }
}

impl fmt::Display for RowFault {
    ghost output = { λ fault. Some (words_text (row_fault_words fault)) };

    fn fmt<W: fmt::Write>(&self, f: &mut fmt::Formatter<W>) -> fmt::Result {
        self.words().fmt(f)
    }
}

impl From<MapFault> for RowFault {
    ghost from_gives = { λ e f. f ≡ row_fault.Map e };

    fn from(e: MapFault) -> RowFault {
        RowFault::Map(e)
    }
}

impl From<ScenFault> for RowFault {
    ghost from_gives = { λ e f. f ≡ row_fault.Scen e };

    fn from(e: ScenFault) -> RowFault {
        RowFault::Scen(e)
    }
}

impl From<CertFault> for RowFault {
    ghost from_gives = { λ e f. f ≡ row_fault.Certificate e };

    fn from(e: CertFault) -> RowFault {
        RowFault::Certificate(e)
    }
}
