//! The commands over maps and scenarios.
#![tactic(auto)]

pub mod block_command;
mod judge;
mod last_line;
pub mod map_command;
mod progress;
pub mod row_command;
mod row_fault;
mod row_line;
mod row_verdict;
pub mod rows_command;
mod rows_fault;
pub mod scen_command;
mod tally;

pub use block_command::block_cmd;
pub use map_command::map_cmd;
pub use row_command::row_cmd;
pub use rows_command::{RowsAsked, rows_cmd};
pub use scen_command::scen_cmd;
