//! What a message tells of an agent.

/// An agent, and how many moves it has finished.
#[derive(Clone, Copy, Debug, PartialEq, Eq, Hash)]
pub struct Entry {
    pub agent: u16,
    pub done: u32,
}
