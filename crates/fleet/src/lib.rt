//! Agents that each run by themselves, on robots of their own: whatever they do together is one
//! run.
#![tactic(auto)]

pub mod laws;
