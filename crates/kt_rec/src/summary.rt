//! How losses are summed for reports.
//! The rule: docs/TABLES.md, "Columns".

/// A row of `gulsummaryxref`: the summary of an item in a summary set.
#[derive(Clone, Copy)]
pub struct GulSummaryXref {
    /// The item.
    pub item_id: u32,
    /// The summary that its losses are added to.
    pub summary_id: u32,
    /// The summary set, 1 to 9.
    pub summaryset_id: u32,
}

/// A row of `fmsummaryxref`: the summary of an output in a summary set.
#[derive(Clone, Copy)]
pub struct FmSummaryXref {
    /// The output.
    pub output_id: u32,
    /// The summary that its losses are added to.
    pub summary_id: u32,
    /// The summary set, 1 to 9.
    pub summaryset_id: u32,
}
