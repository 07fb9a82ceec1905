//! What the objects in memory keep: files by name, and the calls that were made, of which some are to fail.
#![tactic(auto)]

mod calls;
mod files;
mod named_bytes;

pub use calls::{Calls, moved_bytes};
pub use files::Files;
