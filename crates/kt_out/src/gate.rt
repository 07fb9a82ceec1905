//! A gate that a worker passes as it begins a partition, through which a test sees who runs when.
//! The rule: docs/ARCHITECTURE.md, "The outside".

/// A gate in front of each partition. No clause speaks of it.
pub trait Gate {
    /// Returns once the partition may begin. It takes no memory.
    fn pass(&self, partition: u32);
}

/// The gate that is always open.
#[derive(Clone, Copy)]
pub struct Open;

impl Gate for Open {
    fn pass(&self, _partition: u32) {}
}
