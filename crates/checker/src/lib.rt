//! The checker of plans, and what plans cost.
#![tactic(auto)]

mod act_row;
mod bad_move;
mod block;
mod board;
mod cells;
mod checked_plan;
mod checker;
mod conflict;
mod crowd;
mod finding;
pub mod laws;
mod links;
mod listing;
mod moving;
mod naming;
mod places;
mod resting;
mod straying;
mod stretch;
mod under_way;

pub use cells::Cells;
pub use checked_plan::CheckedPlan;
pub use checker::{Rejected, check};
pub use finding::{Faults, first_faults};
pub use moving::{bad_start, moved, next_cell};
pub use straying::may_stray;
pub use stretch::{BLOCK, Stretch};
