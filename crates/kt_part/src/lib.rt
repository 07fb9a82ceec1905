//! Parts of a round: what makes each by its number, the workers that make them in threads, and what takes them in order.
#![tactic(auto)]

mod arm;
mod fold;
mod gather;
mod lanes;
mod merger;
mod round;
mod work;

pub use fold::Fold;
pub use merger::merge;
pub use round::{RoundStop, run_round};
pub use work::Work;
