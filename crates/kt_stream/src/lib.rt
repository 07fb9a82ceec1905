//! The streams between the tools: their records, how they are written, and readers that take them in pieces of any size.
#![tactic(auto)]

mod bins;
mod cdf;
mod entry;
mod event_id;
mod header;
mod kind;
pub mod laws;
mod loss;
mod number;
mod pairs;
mod read;
mod reader;
mod shared;
mod stop;
mod summary;
mod unit;
mod write;

pub use cdf::CdfReader;
pub use entry::{
    Bin, Bins, Cdf, LossRecord, Pair, Pairs, Placed, Records, Reusable, SummaryRecord,
};
pub use event_id::{EventId, EventReader};
pub use kind::{Head, Shape, StreamKind};
pub use loss::LossReader;
pub use reader::{Next, RecordReader};
pub use stop::{RecordCause, StreamStop};
pub use summary::SummaryReader;
pub use unit::Entry;
pub use write::{END, loss_front, put_cdf, put_head, put_loss, put_summary, write_pair};
