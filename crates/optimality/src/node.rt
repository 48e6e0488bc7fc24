//! A node of a proof, by which the valid plans are split in two.
use grid::Cell;

/// By what the valid plans are split. Agents come first, then a time, then cells.
#[derive(Clone, Copy, Debug, PartialEq, Eq)]
pub enum Node {
    /// Two agents are not both in a cell at a time.
    Vertex(u32, u32, u32, Cell),
    /// They don't exchange two cells in a step: the first goes from the one to the other.
    Swap(u32, u32, u32, Cell, Cell),
    /// An agent is not in a cell at a time, or is.
    At(u32, u32, Cell),
    /// It doesn't go from one cell to another in a step, or does.
    Goes(u32, u32, Cell, Cell),
    /// It costs more than so much, or stays from then on.
    Stays(u32, u32),
}
