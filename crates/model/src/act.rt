//! The acts of a plan.

/// What an agent does in one step: it moves to the cell to the north, east, south or west, or
/// waits.
#[derive(Clone, Copy, Debug, PartialEq, Eq, Hash)]
pub enum Act {
    N,
    E,
    S,
    W,
    Wait,
}
