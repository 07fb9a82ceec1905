//! That a footprint comes back from its file and its index, and from the two files byte by byte.
#![tactic(auto)]

mod laws;

pub use laws::{footprint_files_go_round, footprints_go_round};
