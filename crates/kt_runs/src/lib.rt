//! Runs of losses: their losses sidx by sidx, added record by record; and records with pairs as they stand in a stream, written pair by
//! pair from what has a loss for each sidx.
#![tactic(auto)]

mod byte_record;
mod heads;
mod kept_pairs;
mod less;
mod loss_lanes;
mod losses;
mod pair_sums;
mod pairs;
mod run_entry;
mod run_losses;
mod run_sums;
mod shared;
mod sidx;
mod sums;
mod written;

pub use byte_record::{append_record, summary_front};
pub use heads::LossHead;
pub use kept_pairs::{end_pairs, keep_pair, pair_room};
pub use loss_lanes::{LossLanes, has_loss};
pub use losses::ids_of;
pub use pair_sums::{pairs_of, write_pairs};
pub use run_entry::{RunEntry, event_of};
pub use run_losses::{Listed, RunLosses, event_of_run};
pub use run_sums::{add_to_run, clear_run, no_run_sums};
pub use sidx::{place_of, sidx_at};
pub use sums::{add_pairs, zeros};
pub use written::{put_lane, put_pairs};
