//! Lengths, and scenarios: lists of single queries on a map, each with the length that it should
//! have.
#![tactic(auto)]

mod agreement;
mod fields;
pub mod laws;
mod length;
mod listed;
mod numbers;
mod order;
mod row;
mod row_reader;
mod scen_fault;
mod scen_reader;
mod scen_writer;
mod usual_fields;
mod version;

pub use agreement::agrees;
pub use length::Length;
pub use listed::Listed;
pub use row::{Row, Scenario};
pub use scen_fault::ScenFault;
pub use scen_reader::read_scen;
pub use scen_writer::{put_listed, write_scen};
