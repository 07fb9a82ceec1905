//! That tables which load for a run load for each part of it, with the same rows.
#![tactic(auto)]

pub mod laws;
