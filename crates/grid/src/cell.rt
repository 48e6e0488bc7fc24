//! Cells of a map.

/// A cell of a map: x grows to the right and y downwards, from (0, 0) in the upper left corner.
#[derive(Clone, Copy, Debug, PartialEq, Eq, Hash)]
pub struct Cell {
    pub x: u16,
    pub y: u16,
}
