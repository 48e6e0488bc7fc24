//! The command that replays a run.
#![tactic(auto)]

pub mod run_command;

pub use run_command::run_cmd;
