//! How each library of the product is called: a few lines a crate, with what a caller can know.
#![tactic(auto)]

mod agents;
mod commands;
mod continuing_plans;
mod costs;
mod dependencies;
mod faults;
mod fleets;
mod lengths;
mod maps;
mod plans;
mod robots;
mod runs;
mod texts;

pub use agents::begin_move;
pub use commands::verdict_on;
pub use continuing_plans::goes_on;
pub use costs::{least_costs, steps_between};
pub use dependencies::moves_of;
pub use faults::ten_faults;
pub use fleets::cut_as_begun;
pub use lengths::certified_length;
pub use maps::{map_of, may_go};
pub use plans::checked;
pub use robots::converse;
pub use runs::replies_to;
pub use texts::{is_device, write_line};
