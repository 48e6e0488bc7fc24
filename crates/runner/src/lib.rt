//! Runs of a plan: given as texts, or event by event. What executes them stands in a crate below.
#![tactic(auto)]

mod completing;
mod completion;
mod replaying;
mod run_fault;

pub use completing::complete_text;
pub use completion::Completion;
pub use event_text::{EventFault, read_events, read_events_any, write_replies};
pub use executor::{
    CompleteFault, Event, Reply, Runner, SimTape, Version, Why, laws, run, run_with,
};
pub use replaying::{run_text, was_written};
pub use run_fault::RunFault;
