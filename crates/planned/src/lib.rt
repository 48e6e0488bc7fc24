//! A map and a plan that are read and checked, and which of the plan's moves wait for which.
#![tactic(auto)]

mod planned_fault;
mod reading;

pub use planned_fault::PlannedFault;
pub use reading::{PlanAtHand, read_at_hand, read_checked, read_dependencies, read_graph};
