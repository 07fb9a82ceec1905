//! The checks of the tables that a run has loaded, and the first refusal.
#![tactic(auto)]

mod checks;
mod outputs;
mod places;
mod samples;
mod shared;
mod sizes;
mod sources;
mod targets;
mod terms;
mod values;

pub use checks::{first_check, samples_check};
pub use kt_keys::{CheckStop, Need, Refusal, next_units};
pub use outputs::climbed;
pub use places::first_misplaced;
pub use samples::{SummaryCounts, summary_counts};
pub use values::tivs;
