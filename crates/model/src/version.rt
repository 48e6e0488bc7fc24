//! The versions of messages.

/// What the messages of a run tell: of their sender alone, or all that it knows.
#[derive(Clone, Copy, Debug, PartialEq, Eq, Hash)]
pub enum Version {
    One,
    Two,
}
