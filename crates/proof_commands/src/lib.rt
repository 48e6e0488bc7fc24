//! The command that says what a proof shows of a plan, and the leaf for which it refuses one.
#![tactic(auto)]

mod ends;
mod leaf_again;
mod leaf_words;
pub mod optimal_command;
mod shown;

pub use leaf_again::read_leaf;
pub use leaf_words::{leaf_text, least_cost};
pub use optimal_command::optimal_cmd;
