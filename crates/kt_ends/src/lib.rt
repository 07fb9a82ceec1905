//! How a run ends: its status, what it has written by then, and the line of a refusal.
#![tactic(auto)]

pub mod laws;
mod line;
mod reporting;
mod shared;
mod status;
mod tool_stop;

pub use reporting::report;
pub use status::{Refusal, Status};
pub use tool_stop::{ToolStop, status_of, write_stop};
