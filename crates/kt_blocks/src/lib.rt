//! Texts that are written to a sink in blocks: that of a table, that of a footprint, and ids as a stream.
#![tactic(auto)]

mod footprint;
mod ids;
mod pieces;
mod shared;
mod slices;
mod spill;
mod stop;
mod tables;

pub use footprint::write_footprint;
pub use ids::write_ids;
pub use stop::TextStop;
pub use tables::write_csv;
