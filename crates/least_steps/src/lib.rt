//! The least walks between two cells of a map, of straight steps alone or with diagonal ones,
//! proved to be the least by what the search itself leaves.
#![tactic(auto)]

mod answer;
mod distance;
mod expand;
mod joining;
mod open_list;
mod parts;
mod reached;
mod step_fault;
mod step_search;
mod steps;

pub use step_fault::StepFault;
pub use step_search::StepSearch;
