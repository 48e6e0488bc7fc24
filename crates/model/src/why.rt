//! Why an event is refused.

/// A refusal of an event.
#[derive(Clone, Copy, Debug, PartialEq, Eq, Hash)]
pub enum Why {
    NoSuchAgent,
    NoSuchMessage,
    /// A tear of more bytes than a record has.
    BadTear,
    /// A write of the agent failed, and it has not been restarted since.
    Broken,
    AlreadyMoving,
    AtEnd,
    /// The agent with the first number has not been heard to have finished as many moves as the
    /// second.
    Waits(u16, u32),
    NotMoving,
    StoreFailed,
    BadLength,
    BadMagic,
    BadVersion,
    /// An entry of a message, counted from 0, that has the number 0 or does not come behind the one
    /// before.
    BadEntry(u32),
    WrongPlan,
    /// A message tells more moves of an agent than that one has.
    TooMany,
}
