//! The loss of an insured value by a damage distribution: that of a sample, the mean and the deviation.
#![tactic(auto)]

mod moments;
mod sampling;
mod steps;

pub use moments::{DamageMoments, damage_moments};
pub use sampling::{damage_before, end_before, sampled_loss};
pub use steps::{Step, bin_step, end_step};
