//! Proofs that no valid plan costs less: what they say, and what they prove. Definitions and laws,
//! no engine.
#![tactic(auto)]

mod constraint;
pub mod laws;
mod node;

pub use constraint::{Constraint, Demand, Ends, Objective, Whom};
pub use node::Node;
