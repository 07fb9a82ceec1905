//! The rows of the event loss table, two for each summary record, and of the period loss table, two for each occurrence of
//! its event too.
#![tactic(auto)]

mod event_loss;
mod heading;
mod moments;
mod period_loss;
mod row_type;
mod sidx;

pub use event_loss::elt_text;
pub use heading::{elt_heading, plt_heading};
pub use period_loss::{plt_record_text, plt_text};
