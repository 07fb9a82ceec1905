//! Losses added place by place.
//! The rule: docs/CALCULATION.md, "Coverage cut".
ghost use Rattle.std.specs.Prelude.{◌≡◌, ℕ, ◌+◌, ◌<◌, ◌≤◌, ◌^◌, true, false, length, slice_index, IfOk};
ghost use Rattle.kt_gul.specs.Coverage.{IsRow, IsScratch};

use std::alloc::{AllocError, Global};

/// Room for so many losses: with a list of a mebibyte the allocator keeps what an event gives back for the next one.
const ROOM: usize = 131_072;

/// What is kept from coverage to coverage.
#[derive(Drop)]
pub struct Scratch {
    /// The losses of its items before the cut, one item behind the other.
    pub(crate) losses: Vec<u64>,
    /// Their totals, place by place.
    pub(crate) totals: Vec<u64>,
    /// The totals of the items before one.
    pub(crate) before: Vec<u64>,
    /// The losses of one item behind the cut.
    pub(crate) cut: Vec<u64>,
}

impl Scratch {
    /// For rows of so many places. An error is want of memory.
    pub(crate) fn new(alloc: Global, width: usize) -> Result<Scratch, AllocError>
        ensures value { IfOk result (IsScratch width) }
    {
        Ok(Scratch {
            losses: Vec::with_capacity(alloc, ROOM)?,
            totals: vec![in alloc; 0; width]?,
            before: vec![in alloc; 0; width]?,
            cut: vec![in alloc; 0; width]?,
        })
    }
}

/// Makes sums 0.
pub(crate) fn clear(sums: &mut [u64])
    ensures value { IsRow (λ place. 0) (length sums.old) sums.new }
{
    sums.fill(0);
}

/// Adds losses to sums, place by place.
pub(crate) fn add_to(sums: &mut [u64], losses: &[u64])
    requires width { length losses.now ≡ length sums.old }
    requires fits { (place : ℕ) → place < length sums.old → slice_index sums.old place + slice_index losses.now place < 2 ^ 64 }
    ensures value { IsRow (λ place. slice_index sums.old place + slice_index losses.now place) (length sums.old) sums.new }
{
    for (place, loss) in losses.iter().enumerate() {
        sums[place] += *loss;
    }
}

/// Whether it is asked, and some of the sums is above a value.
pub(crate) fn passes(asked: bool, sums: &[u64], value: u64) -> bool
    ensures within { result ≡ false → asked ≡ true → (place : ℕ) → place < length sums.now → slice_index sums.now place ≤ value }
{
    if !asked {
        return false;
    }
    let mut highest = 0;
    for sum in sums {
        highest = highest.max(*sum);
    }
    highest > value
}
