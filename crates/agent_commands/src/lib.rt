//! The commands of one agent of a plan.
#![tactic(auto)]

pub mod agent_command;
mod agent_fault;
mod agent_files;
mod agent_part;
mod beside_name;
mod kept_plan;
mod opening;
mod plan_file;
mod read_files;
pub mod tape_command;
mod tape_guard;
mod tape_report;
mod terms;

pub use agent_command::{Seat, agent_cmd};
pub use agent_fault::AgentFault;
pub use agent_files::{AgentFiles, FileId, HeldFile};
pub use beside_name::{BesideName, DraftName, name_beside};
pub use kept_plan::plan_beside;
pub use read_files::ReadFiles;
pub use tape_command::tape_cmd;
pub use tape_report::read_records;
