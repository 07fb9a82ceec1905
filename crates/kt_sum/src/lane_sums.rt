//! Deviations and lanes added to sums, sidx by sidx.
//! The rule: docs/CALCULATION.md, "Summaries".
ghost use Rattle.std.specs.Prelude.{◌≡◌, ℕ, ◌+◌, ◌<◌, ◌≤◌, ◌^◌, length, slice_index};
ghost use Rattle.kt_runs.specs.Adding.{IsAdded};
ghost use Rattle.kt_runs.specs.RunLosses.{loss_of};
ghost use Rattle.kt_runs.specs.Sidx.{sidx_at};
ghost use Rattle.kt_runs.specs.LaneRows.{pairs_with};

/// Adds a deviation and the losses of a lane, that of the mean and those of the samples, to sums which begin at sidx -2; sidx 0 has none.
/// A sum that does not fit wraps.
pub(crate) fn add_lane(sums: &mut [u64], deviation: u64, lane: &[u64])
    requires some { 1 ≤ length lane.now }
    requires few { length lane.now ≤ 1001 }
    requires width { length sums.old ≡ length lane.now + 2 }
    ensures value { ((k : ℕ) → k < length sums.old → slice_index sums.old k + loss_of (sidx_at (2147483646 + k)) (pairs_with deviation lane.now) < 2 ^ 64) → IsAdded 2147483646 sums.old (pairs_with deviation lane.now) sums.new }
{
    sums[0] = sums[0].wrapping_add(deviation);
    sums[1] = sums[1].wrapping_add(lane[0]);
    for row in 1..lane.len() {
        sums[row + 2] = sums[row + 2].wrapping_add(lane[row]);
    }
}
