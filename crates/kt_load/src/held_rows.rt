//! Where the footprint rows of an event stand among those of a round.
//! The rule: docs/TABLES.md, "Footprint rows of a round".

/// Where the rows of an event stand in the rows of all events of a round.
#[derive(Clone, Copy, Default, Drop)]
pub(crate) struct HeldRows {
    /// The id of the event.
    pub(crate) event: u32,
    /// The place of its first row, counted from 0.
    pub(crate) at: usize,
    /// How many rows it has, at most 100,000.
    pub(crate) count: usize,
}
