//! Whether a proof that no valid plan costs less holds, read line by line.
#![tactic(auto)]

mod asking;
mod due;
mod judge;
mod leaf;
mod line_reader;
mod placing;
mod progress;
mod proof_reader;
mod totals;
mod trail;

pub use leaf::{AgentAtLeaf, LowLeaf, leaf_at};
pub use proof_reader::read_proof;
