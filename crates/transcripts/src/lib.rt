//! What robots read and wrote, and that their fleet was safe.
#![tactic(auto)]

pub mod laws;
