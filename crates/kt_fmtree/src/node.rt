//! A unit of a level, and where the units stand whose losses come to it.
//! The rule: docs/FINANCIAL_MODULE.md, "Levels".
use kt_rules::Profile;

/// A unit of a level. Its children stand side by side in the level below.
#[derive(Clone, Copy)]
pub struct Node {
    /// The unit.
    pub unit: u32,
    /// The place of its first child.
    pub start: usize,
    /// How many children it has.
    pub width: usize,
    /// What the distinct coverages beneath it are worth, in cents.
    pub tiv: u64,
    /// Its terms below the top level.
    pub profile: Profile,
}
