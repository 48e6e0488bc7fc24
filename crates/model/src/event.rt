//! The events of a run.

/// What happens to the agents of a run. Agents and messages are named by their numbers, which may
/// name none.
#[derive(Clone, Copy, Debug, PartialEq, Eq, Hash)]
pub enum Event {
    /// The agent asks to begin its next move.
    Start(u32),
    /// The agent reports that it has arrived.
    Finish(u32),
    /// The agent says how far it has come.
    Say(u32),
    /// The agent receives the message with this number, counted from 0 in the order in which
    /// messages were said.
    Deliver(u32, u64),
    /// The agent restarts: it forgets what it heard, and goes on from what is stored.
    Restart(u32),
    /// The agent's next write stores only this many bytes of its record, and fails.
    Tear(u32, u32),
}
