//! What a move waits for.

/// What a move waits for: that an agent has made so many moves. Where the count is 0, it waits for
/// nobody.
#[derive(Clone, Copy, Debug)]
pub(crate) struct Wait {
    pub(crate) agent: u16,
    pub(crate) count: u16,
}
