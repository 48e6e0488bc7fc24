//! The search for shortest walks, and the certificates that tell which length of a scenario's row
//! is right.
#![tactic(auto)]

mod approach;
mod beyond;
mod certificate;
mod distance;
mod field;
mod flood;
mod front;
mod heading;
mod keys;
mod length_table;
mod room;
mod rounding;
mod search_fault;
mod sides;
mod tightness;
mod tiles;
mod walk_back;
mod walk_search;
mod wave;

pub use certificate::{CertFault, Proposal, certify};
pub use distance::octile_distance;
pub use keys::{DIAGONAL, STRAIGHT};
pub use length_table::LengthTable;
pub use room::put_last;
pub use search_fault::SearchFault;
pub use walk_search::search;
