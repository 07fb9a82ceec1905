//! The calculation rules of the financial module: what the terms of a profile make of a loss.
#![tactic(auto)]

mod amounts;
mod carry;
mod each;
pub mod laws;
mod loss_alone;
mod profile;
mod rule;
mod shared;
mod steps;
mod table;

pub use carry::Carry;
pub use each::apply_each;
pub use loss_alone::{looks_back, loss_after};
pub use profile::{BadProfile, Profile};
pub use rule::apply;
