//! Lanes, element by element.
//! The rules: docs/FINANCIAL_MODULE.md, "Levels".
ghost use Rattle.std.specs.Prelude.{◌≡◌, ℕ, ◌+◌, ◌<◌, ◌^◌, length, replicate, slice_index, IfOk};
ghost use Rattle.kt_lanes.specs.Lanes.{IsLane};

use std::alloc::{AllocError, Global};

/// A lane of so many sidx without an amount. An error is want of memory.
pub fn no_amounts(alloc: Global, width: usize) -> Result<Vec<u64>, AllocError>
    ensures value { IfOk result (λ lane. lane.items ≡ replicate width 0) }
{
    vec![in alloc; 0; width]
}

/// Puts 0 in the place of each amount of a lane.
pub(crate) fn clear(lane: &mut [u64])
    ensures value { lane.new ≡ replicate (length lane.old) 0 }
{
    lane.fill(0);
}

/// Adds the amounts of a lane to those of another, in cents.
pub(crate) fn add_to(lane: &mut [u64], more: &[u64])
    requires same { length more.now ≡ length lane.old }
    requires few { (k : ℕ) → k < length lane.old → slice_index lane.old k + slice_index more.now k < 2 ^ 64 }
    ensures value { IsLane (length lane.old) (λ k. slice_index lane.old k + slice_index more.now k) lane.new }
{
    for k in 0..lane.len() {
        lane[k] += more[k];
    }
}
