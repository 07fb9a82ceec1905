//! A run, and the set whose summaries are made of it.
//! The rule: docs/CALCULATION.md, "Summaries".

use kt_rec::Perspective;
use kt_tables::Portfolio;

/// The event of a run, and the set whose summaries are made of its records.
#[derive(Drop)]
pub struct SetRun<'a> {
    /// The portfolio that has the set.
    pub(crate) portfolio: &'a Portfolio,
    /// Whose set it is.
    pub(crate) perspective: Perspective,
    /// The summary set.
    pub(crate) set: u32,
    /// The event.
    pub(crate) event: u32,
}
