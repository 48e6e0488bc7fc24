//! Which rows of a scenario a checked plan solves.
#![tactic(auto)]

mod fit_fault;
mod fitting;

pub use fit_fault::FitFault;
pub use fitting::fits;
