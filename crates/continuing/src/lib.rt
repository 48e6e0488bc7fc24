//! Plans that go on from plans.
#![tactic(auto)]

mod adding;
mod continue_fault;
mod cutting;
mod departing;
pub mod laws;

pub use adding::added_moves;
pub use continue_fault::ContinueFault;
pub use cutting::{copy, cut};
pub use departing::{continues, longest};
