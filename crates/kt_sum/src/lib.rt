//! Summaries: what the losses of a run come to in each summary of a set.
#![tactic(auto)]

mod lane_sums;
mod lanes;
pub mod laws;
mod rows;
mod run;
mod run_summaries;
mod set_records;
mod set_run;
mod set_sums;
mod span;
mod summary_sums;
mod totals;

pub use lanes::summarise_sets;
pub use run::summarise;
pub use run_summaries::RunSummaries;
pub use set_records::SetRecords;
