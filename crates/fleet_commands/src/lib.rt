//! The commands of a whole fleet: what all tapes say together.
#![tactic(auto)]

pub mod anew_command;
mod cut_time;
mod found_tapes;
pub mod handover_command;
mod handover_fault;
mod keeping;
mod known_tapes;
pub mod laws;
mod left_plan;
pub mod lost_command;
mod one_run;
mod plans_beside;
pub mod status_command;
mod status_line;
mod status_lines;

pub use anew_command::{NewPlan, anew_cmd};
pub use handover_command::handover_cmd;
pub use handover_fault::HandoverFault;
pub use lost_command::lost_cmd;
pub use status_command::status_cmd;
