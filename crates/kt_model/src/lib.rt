//! The damage distributions of an event: from its footprint to a distribution for each areaperil and vulnerability.
#![tactic(auto)]

mod bins;
mod chances;
mod event;
mod exit;
mod foot_rows;
pub mod laws;
mod pairs;
mod plain_rows;
mod rising_rows;
mod scratch;
mod shared;

pub use event::{distributions, put_distributions};
pub use foot_rows::check_rows;
pub use kt_rec::{ModelStop, RowCause};
pub use scratch::Scratch;
