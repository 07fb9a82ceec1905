//! The parts of an event list, for processes that share the events of a run.
#![tactic(auto)]

mod event_part;
mod laws;

pub use event_part::{BadPart, part};
pub use laws::{neighbours_meet, parts_make_a_front, parts_make_the_events};
