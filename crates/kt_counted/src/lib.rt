//! Output files of which the lines and the bytes are counted and nothing is kept.
#![tactic(auto)]

mod counted_file;
mod counted_outputs;
mod counts;
mod history;

pub use counted_outputs::CountedOutputs;
pub use counts::Counts;
