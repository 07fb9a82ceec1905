//! Reinsurance: what a stage cedes of the losses of a run, and what is left, stage after stage.
#![tactic(auto)]

mod ceded;
mod ceding;
pub mod laws;
mod left;
mod net;
mod places;
mod reinsured;
mod shared;
mod stage;
mod stages;
mod written;

pub use reinsured::{Reinsured, one_stage};
pub use stage::stage_of;
pub use stages::{reinsure, reinsure_lanes};
pub use written::put_net;
