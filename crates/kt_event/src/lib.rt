//! One event through all stages: from its footprint rows to the summaries of its losses.
#![tactic(auto)]

mod event;
mod needs;
mod plan;
mod shared;

pub use event::event_block;
pub use kt_block::{EventBlock, Summaries, SummarySet, Terms, set_numbers};
pub use needs::chain_need;
pub use plan::Plan;
