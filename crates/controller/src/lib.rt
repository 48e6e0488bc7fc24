//! The control loop of a robot: what its drive is told to do, by its agent's tape, by what the
//! drive reports and by what others say. It touches no file, no network and no clock.
#![tactic(auto)]

mod command;
mod control;
mod controller;
pub mod laws;
mod places;

pub use carrier_text::Report;
pub use command::{Alarm, Command, Way};
pub use control::{Control, Due, Wants};
pub use controller::{Controller, Settings};
