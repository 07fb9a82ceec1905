//! What is asked of the losses of an event.
//! The rule: docs/CALCULATION.md, "Sampled loss".

use std::alloc::Global;

/// What is asked of the losses of an event, and where their memory is from.
#[derive(Clone, Copy)]
pub struct Draw {
    /// Where memory is from.
    pub(crate) alloc: Global,
    /// How many samples.
    pub(crate) samples: u32,
    /// Whether the losses of a coverage are cut to its insured value.
    pub(crate) cut: bool,
    /// The event's id.
    pub(crate) event: u32,
}
