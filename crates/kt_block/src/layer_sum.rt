//! The sum of a layer over the samples.
//! The rule: docs/FINANCIAL_MODULE.md, "Insured losses".

/// What the policy losses of a layer add to over the samples, and what its outputs have of them.
#[derive(Clone, Copy)]
pub struct LayerSum {
    /// The event.
    pub event: u32,
    /// The top.
    pub agg: u32,
    /// The layer.
    pub layer: u32,
    /// The policy losses of the samples, added, in cents.
    pub policy: u64,
    /// What they were shared out to, added, in cents.
    pub allocated: u64,
}
