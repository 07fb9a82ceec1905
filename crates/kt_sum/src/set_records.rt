//! The summaries of a run in one set.
//! The rule: docs/CALCULATION.md, "Summaries".

use kt_stream::{Records, SummaryRecord};

/// The summaries of a run in a set.
#[derive(Drop)]
pub struct SetRecords {
    /// The summary set.
    pub set: u32,
    /// Their records, by rising summary.
    pub records: Records<SummaryRecord>,
}
