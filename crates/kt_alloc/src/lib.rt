//! The insured losses of a run of ground-up losses, and the sums of its layers.
#![tactic(auto)]

mod index;
pub mod laws;
mod layout;
mod made;
mod outlets;
mod outputs;
mod run;
mod shared;
mod sums;

pub use index::OutputIndex;
pub use kt_block::LayerSum;
pub use kt_fmtree::allocate;
pub use made::{Insured, InsuredLanes};
pub use run::{insured, insured_lanes, put_insured};
