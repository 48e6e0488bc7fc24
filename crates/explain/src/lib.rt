//! What a fault means, for people: where it is, what was due there, and what is there instead.
#![tactic(auto)]

mod advice;
mod beginning;
mod departing;
mod devices;
mod event_words;
mod explaining;
mod files;
mod help;
mod lines;
mod map_words;
mod message_faults;
mod other_faults;
mod page;
mod picture;
mod plan_faults;
mod plan_words;
mod row_words;
mod scen_words;
mod showing;
mod spans;
mod table;
mod tapes;
mod text_faults;
mod texts;
mod told;
mod walks;

pub use explaining::{Subject, explain};
pub use files::{NamedFile, open_again};
pub use help::{FaultHelp, fault_help};
pub use page::Style;
