//! The texts of a run: events are read one by one, and replies written.
#![tactic(auto)]

mod event_fault;
mod event_line;
mod event_reader;
mod event_writer;
mod header;
pub mod laws;
mod reply_writer;

pub use event_fault::EventFault;
pub use event_reader::{EventReader, read_events, read_events_any};
pub use event_writer::put_event;
pub use reply_writer::{put_hexadecimal, put_reply, write_replies};
