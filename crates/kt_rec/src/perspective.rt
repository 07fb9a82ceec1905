//! Whose losses a table shows, and the key of a cell of period losses.
//! The rule: docs/CALCULATION.md, "Periods".

/// Whose losses: of the ground up, of the insurer, or net of reinsurance.
#[derive(Clone, Copy, Debug, PartialEq, Eq, PartialOrd, Ord)]
pub enum Perspective {
    /// Ground-up losses.
    Gul,
    /// Insured losses.
    Il,
    /// Losses net of reinsurance.
    Ri,
}

/// The key of a cell: the losses of one summary and sample in one period.
#[derive(Clone, Copy, Debug, PartialEq, Eq, PartialOrd, Ord)]
pub struct CellKey {
    /// Whose losses.
    pub perspective: Perspective,
    /// The summary set, 1 to 9.
    pub set: u32,
    /// The summary.
    pub summary: u32,
    /// The sample, 1 upwards, or -1 for the mean.
    pub sidx: i32,
    /// The period.
    pub period: u32,
}
