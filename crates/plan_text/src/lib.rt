//! Plans as values, and their text.
#![tactic(auto)]

mod agent_line;
mod header_lines;
pub mod laws;
mod plan;
mod plan_reader;
mod plan_text_fault;
mod plan_writer;

pub use plan::{Course, Plan, PushFault};
pub use plan_reader::read_plan;
pub use plan_text_fault::PlanTextFault;
pub use plan_writer::write_plan;
