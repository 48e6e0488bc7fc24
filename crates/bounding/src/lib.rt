//! What plans cost at least, whoever plans: the least steps of each agent by itself.
#![tactic(auto)]

mod bounds;
pub mod laws;

pub use bounds::bounds_of;
