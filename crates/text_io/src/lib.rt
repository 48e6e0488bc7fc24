//! The bytes that texts are read from and written to, and what all formats have in common.
#![tactic(auto)]

mod counted;
mod digits;
mod failure;
mod fault_name;
mod fault_words;
pub mod laws;
mod lines;
mod numerals;
mod origin;
mod out_of_memory;
mod sink;
mod source;

pub use counted::Counted;
pub use failure::Failure;
pub use fault_name::FaultName;
pub use fault_words::FaultWords;
pub use lines::TakenLine;
pub use numerals::{number_before, numeral, saturated_numeral, small_number_before, small_numeral};
pub use origin::Origin;
pub use out_of_memory::OutOfMemory;
pub use sink::{Sink, WriteFault};
pub use source::{LARGE_PIECE, PIECE, Source, Stop};
