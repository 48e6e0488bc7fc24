//! What a control loop has its carrier do.
use agent::{HearFault, Held};
use grid::Cell;
use robot::StaleWord;

/// What a control loop has its carrier do, or show.
#[derive(Debug, Drop)]
pub enum Command {
    /// Show where the robot is by its tape, and how many moves are finished.
    Stored(Held, u32),
    /// Let the drive go on.
    Go(Way),
    /// Have the drive report where it is.
    Ask,
    /// Send this message of version 1 to all others.
    Say([u8; 12]),
    /// Send this message of version 2 to all others.
    Tell(Vec<u8>),
    /// Show for whom the robot waits, and how many moves that one has to finish.
    Waits { agent: u16, count: u32 },
    /// Show that the robot has come to a cell.
    Arrived(Cell),
    /// Show that the robot is where its plan ends.
    Done,
    /// Show that a message was dropped.
    Dropped(HearFault),
    /// Tell a person.
    Alarm(Alarm),
}

/// The places of the path from a first to a last one. A drive that is in one of them may go on to
/// those behind it, in order. One that is in none of them stands. No drive goes back.
#[derive(Clone, Copy, Debug, PartialEq, Eq)]
pub struct Way {
    pub first: u32,
    pub last: u32,
}

/// What a person has to know.
#[derive(Clone, Copy, Debug, PartialEq, Eq)]
pub enum Alarm {
    /// The drive is where the tape doesn't have it, or says what nobody understands.
    Misplaced,
    /// A message shows that the tape is an older one.
    StaleTape(StaleWord),
    /// A record can't be stored.
    StoreFailed,
    /// Memory is wanting for what was heard, or for what is to be told.
    OutOfMemory,
}
