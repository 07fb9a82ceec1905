//! What a run of all stages says of the single tools that make its stages, over all events and over parts of them.
#![tactic(auto)]

pub mod laws;
pub mod run_laws;
