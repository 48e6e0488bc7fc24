//! Visits of cells, and rotations.

/// The agent comes into a cell at this time, as the one with this index in its path; the start
/// counts as time 0.
#[derive(Clone, Copy, Debug, PartialEq, Eq, Hash)]
pub struct Visit {
    pub agent: u16,
    pub index: u32,
    pub time: u32,
}

/// At least three agents, the least first, that in this step each move into the cell in which the
/// next one stands, and the last into that of the first (Stern et al. 2019, "Cycle conflict").
#[derive(Debug, Drop)]
pub struct Rotation {
    pub step: u32,
    pub agents: Vec<u16>,
}
