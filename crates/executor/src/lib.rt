//! Whole runs: all agents of a graph over tapes that tear, and every message that was said.
#![tactic(auto)]

mod arrival;
mod complete_fault;
mod ending;
pub mod laws;
mod replies;
mod runner;
mod runs;
mod said;
mod sim_tape;

pub use complete_fault::CompleteFault;
pub use model::{Event, Reply, Version, Why};
pub use runner::Runner;
pub use runs::{run, run_with};
pub use sim_tape::SimTape;
