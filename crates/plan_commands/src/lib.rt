//! The commands over plans.
#![tactic(auto)]

mod cell_text;
mod continuation_fault;
pub mod continues_command;
pub mod cut_command;
pub mod deps_cell_command;
pub mod deps_command;
mod deps_text;
pub mod laws;
mod numerals;
pub mod path_command;
mod path_fault;
mod path_text;
mod straying;
mod visits_text;
mod walk;

pub use continues_command::continues_cmd;
pub use cut_command::cut_cmd;
pub use deps_cell_command::deps_cell_cmd;
pub use deps_command::deps_cmd;
pub use path_command::path_cmd;
