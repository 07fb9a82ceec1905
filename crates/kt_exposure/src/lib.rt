//! What the coverages of a key are worth: of units, and of summaries.
#![tactic(auto)]

mod exposure;

pub use exposure::{SummaryUnit, UnitCoverage, exposure_list, exposures};
