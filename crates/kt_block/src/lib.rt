//! What a run of all stages computes, and the form of what one event gives.
#![tactic(auto)]

mod block;
mod layer_sum;
mod sets;
mod shared;
mod terms;

pub use block::{EventBlock, Summaries};
pub use layer_sum::LayerSum;
pub use sets::set_numbers;
pub use terms::{SummarySet, Terms};
