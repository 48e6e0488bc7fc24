//! The commands that judge plans: whether they are valid, what is against them, and what they cost
//! at least.
#![tactic(auto)]

pub mod bound_command;
mod bound_text;
pub mod check_command;
mod check_fault;
mod check_terms;
mod faults_text;
mod on_map;
mod told;
mod totals;
mod verdict;
mod verdicts;

pub use bound_command::bound_cmd;
pub use bound_text::BoundForm;
pub use check_command::{check_cmd, check_fit_cmd};
pub use check_fault::CheckFault;
pub use check_terms::CheckTerms;
pub use verdict::{Verdict, verdict_json};
