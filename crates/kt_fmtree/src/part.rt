//! What a unit has of a policy loss.
//! The rule: docs/FINANCIAL_MODULE.md, "Allocation".

/// An amount of the unit at a place of its level, in the order of the tree.
#[derive(Clone, Copy)]
pub struct PlacedPart {
    /// The place of the unit.
    pub place: usize,
    /// Its amount in cents.
    pub amount: u64,
}
