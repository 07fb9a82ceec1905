//! What ids have of the shares of a run: those of each id added, row by row.
#![tactic(auto)]

mod ceded_shares;

pub use ceded_shares::ceded_lanes;
