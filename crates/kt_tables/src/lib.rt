//! A valid portfolio, and the lookups in its tables.
#![tactic(auto)]

mod columns;
mod exposures;
mod kept;
mod lookups;
mod place;
mod portfolio;
mod searches;
mod set;
mod shared;
mod summaries;

pub use place::Place;
pub use portfolio::Portfolio;
pub use set::SetSummaries;
