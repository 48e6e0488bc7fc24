//! The replies to events.
use crate::Why;
use grid::Cell;

/// What an event is answered with. Cells and numbers of moves are those of the agent of the event.
#[derive(Debug, Drop)]
pub enum Reply {
    /// The agent has begun to move to the cell.
    Moving(Cell),
    /// The agent has come to the cell.
    Arrived(Cell),
    /// The message with this number, counted from 0, has these bytes.
    Said(u64, Vec<u8>),
    /// A message of the agent with the first number was heard, and so many of its moves are known
    /// to be finished.
    Heard(u16, u32),
    /// After a restart the agent stands in the cell, and has finished so many moves.
    At(Cell, u32),
    /// After a restart the agent is between the cells, and has finished so many moves.
    Between(Cell, Cell, u32),
    Armed,
    Refused(Why),
}
