//! What is insured: items and the coverages that they belong to.
//! The rule: docs/TABLES.md, "Columns".

/// A row of `items`: a risk at a place, with the vulnerability that turns hazard into damage.
#[derive(Clone, Copy)]
pub struct Item {
    /// The item.
    pub item_id: u32,
    /// The coverage that it belongs to.
    pub coverage_id: u32,
    /// The area and peril whose hazard strikes it.
    pub areaperil_id: u32,
    /// The vulnerability that turns intensity into damage.
    pub vulnerability_id: u32,
    /// Items of one group share their random numbers.
    pub group_id: u32,
}

/// A row of `coverages`.
#[derive(Clone, Copy)]
pub struct Coverage {
    /// The coverage.
    pub coverage_id: u32,
    /// Its total insured value, in cents, at most 10^14.
    pub tiv: u64,
}
