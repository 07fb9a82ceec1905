//! The structure of a programme, as the tables have it, and the programme of the ids that have losses.
#![tactic(auto)]

mod building;
mod coverage;
pub mod laws;
mod links;
mod outline;
mod plan;
mod shared;
mod structure;
mod terms;

pub use structure::Structure;
