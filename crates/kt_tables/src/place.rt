//! Where the records of an event stand in the footprint file.
//! The rule: docs/TABLES.md, "Lookups".

/// The place of the records of an event in the footprint file.
#[derive(Clone, Copy, Drop)]
pub struct Place {
    /// The byte at which the first record begins.
    pub at: u64,
    /// The size of all records in bytes.
    pub size: u64,
}
