//! Losses added sidx by sidx.
//! The rule: docs/STREAMS.md, "Runs".
ghost use Rattle.std.specs.Prelude.{◌≡◌, ℕ, ◌+◌, ◌<◌, ◌^◌, length, slice_index, IfOk};
ghost use Rattle.kt_runs.specs.RunLosses.{loss_of};
ghost use Rattle.kt_runs.specs.Sidx.{sidx_at};
ghost use Rattle.kt_runs.specs.Adding.{Holds, AreInside, IsAdded};

use crate::sidx::place_of;
use kt_stream::Pair;
use std::alloc::{AllocError, Global};

/// As many zeros. An error is want of memory.
pub fn zeros(alloc: Global, width: usize) -> Result<Vec<u64>, AllocError>
    ensures value { IfOk result (λ sums. Holds width (λ k. 0) sums.items) }
{
    vec![in alloc; 0; width]
}

/// Adds the losses of pairs to sums, the first of which is for the sidx at the place `least`. A sum that does not fit wraps.
#[inline]
pub fn add_pairs(sums: &mut [u64], least: u64, pairs: &[Pair])
    requires inside { AreInside least (length sums.old) pairs.now }
    ensures value { ((k : ℕ) → k < length sums.old → slice_index sums.old k + loss_of (sidx_at (least + k)) pairs.now < 2 ^ 64) → IsAdded least sums.old pairs.now sums.new }
{
    for pair in pairs {
        let place = (place_of(pair) as u64 - least) as usize;
        sums[place] = sums[place].wrapping_add(pair.loss);
    }
}
