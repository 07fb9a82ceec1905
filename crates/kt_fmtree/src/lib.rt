//! The tree of a programme, and the programme of the financial module that keeps it: its levels, what they carry, the policy losses of
//! its layers, and these shared back to the ids beneath a top.
#![tactic(auto)]

mod allocation;
mod by_id;
mod carrying;
mod down;
mod giving;
pub mod laws;
mod levels;
mod lists;
mod lookups;
mod node;
mod order;
mod part;
mod places;
mod policy;
mod programme;
mod shared;
mod sums;

pub use allocation::allocate;
pub use by_id::{id_at, zeros};
pub use levels::Levels;
pub use lists::Lists;
pub use node::Node;
pub use order::rising;
pub use part::PlacedPart;
pub use places::places_of;
pub use programme::Programme;
pub use sums::added;
