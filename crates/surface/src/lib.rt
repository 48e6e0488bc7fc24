//! Every public name that other programs build on, called from the crate in which they look for it:
//! a name that is lost or moves fails here.
//! `calling` shows what callers can know of each answer.
#![tactic(auto)]

mod agents;
mod commands;
mod dependencies;
mod lengths;
mod maps;
mod plans;
mod runs;

pub use agents::{
    answers_of, arms, heard_by, letter, opened, requests, taken_back, tape_of, tape_with,
};
pub use commands::{
    agent_cmd, check_cmd, check_fit_cmd, deps_status, dialogue, line_of, map_status, row_cmd,
    run_cmd, scen_status, verdict_text,
};
pub use dependencies::{counts, graph_of, need_of, rotations_of, visits_of};
pub use lengths::{
    certified, listed_length, read_rows, row_fields, searched, table_of, write_rows,
};
pub use maps::{failed_calls, legal_steps, map_text, read_text, size, terrain_at};
pub use plans::{checked, costs, place_of, plan_of, solves, text_of, with_agent};
pub use runs::{
    all_replies, begun, completed, events_of, held_by, replies_of_texts, simulated_tape, stepped,
    version_and_events, write_all,
};
