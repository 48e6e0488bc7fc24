//! How a run ends.

/// How a run ends that was replayed.
#[derive(Clone, Copy, Debug, PartialEq, Eq)]
pub enum Completion {
    /// Events were found that bring every agent to its end.
    Ends,
    /// The rotation with this number, counted from 0 as the graph lists them, keeps agents from
    /// their ends.
    Blocked(u32),
}
