//! A read of an input file, as input files in memory keep it.
//! The rule: docs/ARCHITECTURE.md, "The outside".

use kt_rec::Name;

/// A read that has moved bytes: what it asked for.
#[derive(Drop)]
pub struct InputCall {
    /// The file.
    pub name: Name,
    /// The place of the first byte, counted from 0.
    pub at: u64,
    /// How many bytes were asked for, at least 1; fewer may have been moved.
    pub len: u64,
}
