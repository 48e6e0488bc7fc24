//! The cells that an agent holds.
use grid::Cell;

/// One cell where the agent stands, and two where it moves from the first to the second.
#[derive(Clone, Copy, Debug, PartialEq, Eq, Hash)]
pub enum Held {
    At(Cell),
    Between(Cell, Cell),
}
