//! What an agent costs at least under what a proof asks of it, by itself: a search whose answer is
//! proved.
#![tactic(auto)]

mod asked;
mod cost_search;
mod expand;
mod frontier;
mod goal_search;
mod goal_steps;
mod legal_steps;
mod marks;
mod rules;
mod seek;
mod sides;
mod states;
mod walk;
mod way;

pub use cost_search::{CostSearch, Known, Least};
pub use goal_steps::GoalSteps;
pub use legal_steps::LegalSteps;
pub use walk::meets;
