//! The losses of a programme at many sidx at once: each unit has a lane, its losses sidx by sidx.
#![tactic(auto)]

mod by_id;
mod by_lanes;
mod by_rows;
mod climbing;
mod down;
mod layers;
mod plain;
mod policy;
mod row;
mod shared;
mod table;
mod table_losses;

pub use climbing::{Climbed, are_in_turn, climb};
pub use down::{LevelRoom, level_room_of};
pub use layers::{TopLayer, top_layers};
pub use plain::{has_plain_units, layer_looks_back};
pub use policy::{TopSums, allocate_lanes, no_sums, policy_lane};
pub use table::{Table, table_of, table_of_run};
pub use table_losses::TableLosses;
