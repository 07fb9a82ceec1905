//! Lanes: what each of some units has sidx by sidx; and totals that are shared out over them.
#![tactic(auto)]

mod amounts;
mod by_id;
mod lane;
mod lanes;
mod likely;
mod parts;
mod quotient;
mod shared;
mod shares;
mod split;
mod sums;
mod tested;

pub use amounts::{Amounts, OneLane};
pub use by_id::{add_amounts_by_id, add_by_id};
pub use lane::no_amounts;
pub use lanes::Lanes;
pub use shares::{Room, room_of, share_lanes};
pub use sums::sum_lanes;
