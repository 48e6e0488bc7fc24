//! What a drive reports.
use grid::Cell;

/// What a drive reports of itself.
#[derive(Clone, Copy, Debug, PartialEq, Eq)]
pub enum Report {
    /// It stands in a cell.
    Stands(Cell),
    /// It is between two cells, and goes from the first to the second.
    Between(Cell, Cell),
    /// Its words are not understood.
    Unclear,
}
