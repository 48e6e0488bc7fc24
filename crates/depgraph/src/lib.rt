//! The dependency graph of a checked plan: which move waits for which.
#![tactic(auto)]

mod cell_hash;
mod cycles;
mod dependencies;
mod entries;
mod following;
mod graph;
pub mod laws;
mod laying;
mod numbering;
mod order;
mod part;
mod paths;
mod placing;
mod rotations;
mod sharing;
mod sorting;
mod tiles;
mod waiting;

pub use dependencies::{Dependencies, Route};
pub use graph::Graph;
pub use model::{Rotation, Visit};
pub use part::{OwnPart, Part};
pub use text_io::OutOfMemory;
