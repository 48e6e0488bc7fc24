//! Why not all rows were judged.
ghost use Rattle.std.specs.Prelude.{◌≡◌};
ghost use Rattle.text_commands.specs.declared.rows_fault.RowsFault.TheVariants as rows_fault;

use crate::row_fault::RowFault;
use text_io::WriteFault;

/// Why not all rows were judged and their lines written.
#[derive(Clone, Copy, PartialEq, Eq)]
pub(crate) enum RowsFault {
    /// A row came to nothing.
    Row(RowFault),
    WriteFailed,
}

impl From<RowFault> for RowsFault {
    ghost from_gives = { λ e f. f ≡ rows_fault.Row e };

    fn from(e: RowFault) -> RowsFault {
        RowsFault::Row(e)
    }
}

impl From<WriteFault> for RowsFault {
    ghost from_gives = { λ _ f. f ≡ rows_fault.WriteFailed };

    fn from(_e: WriteFault) -> RowsFault {
        RowsFault::WriteFailed
    }
}
