//! The text of a proof that no valid plan costs less, line by line.
#![tactic(auto)]

mod claim;
mod form;
mod head_lines;
pub mod laws;
mod node_line;
mod numbers;
mod proof_fault;

pub use claim::ProofClaim;
pub use head_lines::{read_bound, read_header, read_objective};
pub use node_line::read_node;
pub use proof_fault::ProofFault;
