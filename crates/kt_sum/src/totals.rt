//! What the sums of several summaries come to.
//! The rule: docs/CALCULATION.md, "Summaries".
ghost use Rattle.std.specs.Prelude.{◌≡◌, ℕ, ◌+◌, ◌<◌, ◌^◌, length, All, slice_index, IfOk};
ghost use Rattle.kt_runs.specs.Adding.{Holds};
ghost use Rattle.kt_sum.specs.RunSummaries.{IsReadyRow};
ghost use Rattle.kt_sum.specs.Totals.{total_at};

use crate::summary_sums::SummarySums;
use kt_runs::zeros;
use std::alloc::{AllocError, Global};

/// Adds sums to others, place by place. A sum that does not fit wraps.
fn add_sums(total: &mut [u64], sums: &[u64])
    requires width { length sums.now ≡ length total.old }
    ensures width { length total.new ≡ length total.old }
    ensures value { ((k : ℕ) → k < length total.old → slice_index total.old k + slice_index sums.now k < 2 ^ 64) → Holds (length total.old) (λ k. slice_index total.old k + slice_index sums.now k) total.new }
{
    for place in 0..sums.len() {
        total[place] = total[place].wrapping_add(sums[place]);
    }
}

/// What sums of so many places come to, place by place. A sum that does not fit wraps. An error is want of memory.
pub(crate) fn total_of(
    alloc: Global,
    width: usize,
    rows: &[SummarySums],
) -> Result<Vec<u64>, AllocError>
    requires rows { All (IsReadyRow width) rows.now }
    ensures width { IfOk result (λ total. length total.items ≡ width) }
    ensures value { IfOk result (λ total. ((k : ℕ) → k < width → total_at rows.now k < 2 ^ 64) → Holds width (total_at rows.now) total.items) }
{
    let mut total = zeros(alloc, width)?;
    for row in rows {
        add_sums(&mut total, &row.sums);
    }
    Ok(total)
}
