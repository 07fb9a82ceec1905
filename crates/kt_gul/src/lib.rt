//! Ground-up losses: the sampled loss, the mean and the deviation of each item in an event.
#![tactic(auto)]

mod coverage;
mod cut;
mod draw;
mod event;
mod exit;
mod held;
mod item;
pub mod laws;
mod pairs;
mod quotient;
mod random;
mod struck;
mod sums;
mod tables;

pub use event::{ground_up, ground_up_lanes, put_ground_up};
pub use held::CdfEntry;
