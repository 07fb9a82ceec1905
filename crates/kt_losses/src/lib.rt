//! Tools over streams of losses: each record is judged by the ids that there are and by what its run adds to, and each closed run
//! is handed to the tool: insured losses, losses net of what layers take, summaries.
#![tactic(auto)]

mod heading;
mod insured;
mod judging;
mod known;
mod net;
mod summaries;
mod summing;
mod table;

pub use insured::write_insured;
pub use net::write_net;
pub use summaries::write_summaries;
