//! The command line of `mapf` as a value.
#![tactic(auto)]

mod command_line;
mod help;
mod lines;
mod plan_words;
mod reading;
mod refusal;
mod run_words;
mod spelling;
mod text_words;
mod words;

pub use command_line::{Asked, LineFault};
pub use lines::{CheckLine, FleetLine, Line, OptimalLine, RowsLine};
pub use plan_words::PlanQuery;
pub use run_words::FleetQuery;
pub use text_words::TextQuery;
pub use words::line;
