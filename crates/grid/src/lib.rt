//! Maps of cells, and their text.
#![tactic(auto)]

mod cell;
mod header_line;
mod joining;
pub mod laws;
mod map;
mod map_fault;
mod map_reader;
mod map_writer;
mod step;
mod terrain;
mod terrain_scan;

pub use cell::Cell;
pub use joining::{are_joined, is_land};
pub use map::Map;
pub use map_fault::MapFault;
pub use map_reader::read_map;
pub use map_writer::write_map;
pub use step::{step4, step8};
pub use terrain::Terrain;
pub use text_io::{Counted, WriteFault};
