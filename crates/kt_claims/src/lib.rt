//! The numbers of a round: each is claimed once whatever the order of the workers' steps, and what was made for them is put in order.
#![tactic(auto)]

mod claims;
mod dealing;
mod inbox;
mod reorder;
mod shared;

pub use claims::{Claims, Pass};
pub use inbox::{Arm, Inbox, Item, Lane};
pub use reorder::Reorder;
