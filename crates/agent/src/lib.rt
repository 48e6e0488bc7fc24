//! The part that runs on a robot: messages, the tape of an agent's progress, and the agent itself.
#![tactic(auto)]

mod agent;
mod counted_tape;
mod counters;
mod entries;
mod finished;
mod hearing;
pub mod laws;
mod mem_tape;
mod message;
mod opening;
mod record;
mod records;
mod refusal;
pub mod replies;
mod tape;
mod telling;

pub use agent::Agent;
pub use counted_tape::CountedTape;
pub use finished::{Finished, decode, encode};
pub use mem_tape::{MemTape, TapeMakeFault};
pub use message::{Message, Told, read_message};
pub use model::{Entry, Held, MsgFault};
pub use records::Records;
pub use refusal::{HearFault, OpenFault, Refusal, TellFault};
pub use tape::{RECORD_LENGTH, RECORD_SIZE, Scripted, Tape, TapeError};
