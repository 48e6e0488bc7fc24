//! The lines between a robot and its carrier: the events that the carrier writes, and the lines by
//! which a robot answers them.
#![tactic(auto)]

mod answer_lines;
mod event_line;
pub mod laws;
mod report;

pub use answer_lines::{
    Alarm, put_alarm, put_arrived, put_ask, put_done, put_dropped, put_end, put_go, put_send,
    put_state, put_waits,
};
pub use event_line::{CarrierLine, LONGEST_LINE, read_line};
pub use report::Report;
