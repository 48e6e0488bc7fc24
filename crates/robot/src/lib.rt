//! What an agent's own process needs: its tape in a file, and the dialogue in which each input line
//! is answered by one line.
#![tactic(auto)]

mod answering;
mod disk;
mod file_tape;
mod guarded_tape;
mod input_lines;
mod line_answer;
mod request;
mod stale;
mod sync_file;
mod talk_fault;
mod talking;

pub use file_tape::{FileTape, FileTapeFault};
pub use guarded_tape::{Guard, GuardedTape};
pub use stale::{StaleWord, older_tape};
pub use sync_file::SyncFile;
pub use talk_fault::TalkFault;
pub use talking::{Talker, talk};
