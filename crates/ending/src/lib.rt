//! How every command ends: its exit status, the line of its fault, and the texts that it writes.
#![tactic(auto)]

mod ending;
mod fault_line;
mod pieces;
mod status;
mod writing;

pub use ending::{Ending, conclude, finish};
pub use fault_line::{put_fault_line, put_fault_words};
pub use pieces::{Piece, put_ended, put_pieces};
pub use status::Status;
pub use writing::{put_number, write_text};
