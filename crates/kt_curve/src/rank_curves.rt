//! The curves of a summary that are made of its samples' losses by rank: a curve for each sample, and that of their means.
//! The rules: docs/CALCULATION.md, "Kinds of exceedance curves"; docs/OUTPUTS.md, "Exceedance curve tables".
ghost use Rattle.std.specs.Prelude.{◌≡◌, ◌+◌, ◌-◌, ◌*◌, ◌≤◌, ◌<◌, ◌^◌, ℕ, List, ◌++◌, map, length, slice_index, sum_by, All, IfOk, OnOk};
ghost use Rattle.std.specs.List.Sorted.{IsPermutation};
ghost use Rattle.kt_curve.specs.Grid.{sample_sidx};
ghost use Rattle.kt_cell.specs.Amounts.{amount_at};
ghost use Rattle.kt_period_cells.specs.SummaryRows.{group_entries, IsSummary};
ghost use Rattle.kt_ranks.specs.RankedLosses.{curve_rows, ranked_loss};
ghost use Rattle.kt_curve.specs.Exceedance.{rank_means, sidx_values, wheat_rows};
ghost use Rattle.kt_curve.specs.LossesOfSamples.{HasSummary, group_losses};
ghost use Rattle.kt_ranks.specs.Ranks.{curve_ranks};

use crate::mean_curves::means;
use crate::sample_losses::{SampleLosses, list_at};
use kt_money::{Bytes, OutOfMemory};
use kt_period_cells::SummaryCells;
use kt_ranks::{append_rows, put_losses};
use std::alloc::Global;

/// Appends the rows of a curve of as many values as there are places, of which the losses of the ranks that it asks for are these. What
/// stands at the places has no meaning, before and behind. An error is want of memory.
fn append_ranked_rows(
    out: &mut Bytes,
    placed: &mut [u64],
    summary: u32,
    column: u32,
    ranks: &[u64],
    losses: &[u64],
    returns: &[u32],
) -> Result<(), OutOfMemory>
    requires count { length placed.old ≤ 10 ^ 8 }
    requires returns { All (λ period. 1 ≤ period) returns.now }
    requires asked { IsPermutation (curve_ranks (length placed.old) returns.now) ranks.now }
    requires len { length losses.now ≡ length ranks.now }
    ensures len { length placed.new ≡ length placed.old }
    ensures ok { OnOk result ((values : List ℕ) → length values ≡ length placed.old → losses.now ≡ map (ranked_loss values) ranks.now → out.new ≡ out.old ++ curve_rows summary column (length placed.old) values returns.now) }
{
    put_losses(placed, ranks, losses);
    append_rows(out, summary, column, placed.len() as u64, placed, returns)
}

/// Appends the rows of the curves of all samples of the summary at a place, where there is a place for each period. An error is want of
/// memory.
pub(crate) fn append_wheat(
    out: &mut Bytes,
    placed: &mut [u64],
    group: &SummaryCells<'_>,
    samples: &SampleLosses,
    place: usize,
    returns: &[u32],
) -> Result<(), OutOfMemory>
    requires group { IsSummary group.now }
    requires places { length placed.old ≡ group.now.periods }
    requires returns { All (λ period. 1 ≤ period) returns.now }
    requires samples { HasSummary group.now returns.now place samples.now }
    ensures places { length placed.new ≡ group.now.periods }
    ensures ok { OnOk result (out.new ≡ out.old ++ wheat_rows group.now.perspective group.now.set group.now.periods group.now.samples (amount_at group.now.maxima (group_entries group.now)) returns.now group.now.summary) }
{
    let ranks = samples.ranks.as_slice();
    let losses = samples.of_summary(group.samples, place);
    for sample in 1..group.samples + 1 {
        let own = list_at(losses, ranks.len(), sample as usize - 1);
        append_ranked_rows(out, placed, group.summary, sample, ranks, own, returns)?;
    }
    Ok(())
}

/// Adds values to sums, place by place.
fn add_values(sums: &mut [u128], values: &[u64])
    requires few { length values.now ≤ length sums.old }
    requires room { (place : ℕ) → slice_index sums.old place ≤ 2 ^ 100 }
    ensures len { length sums.new ≡ length sums.old }
    ensures most { (place : ℕ) → slice_index sums.new place ≤ slice_index sums.old place + (2 ^ 64 - 1) }
    ensures sums { (place : ℕ) → slice_index sums.new place ≡ slice_index sums.old place + slice_index values.now place }
{
    for (place, value) in values.iter().enumerate() {
        sums[place] += u128::from(*value);
    }
}

/// Adds the losses of ranks over all samples of a summary to sums that are 0.
fn add_samples(sums: &mut [u128], group: &SummaryCells<'_>, ranks: &[u64], losses: &[u64])
    requires group { IsSummary group.now }
    requires losses { losses.now ≡ group_losses ranks.now group.now }
    requires len { length sums.old ≡ length ranks.now }
    requires none { (place : ℕ) → slice_index sums.old place ≡ 0 }
    ensures len { length sums.new ≡ length ranks.now }
    ensures most { (place : ℕ) → slice_index sums.new place ≤ group.now.samples * (2 ^ 64 - 1) }
    ensures sums { (place : ℕ) → place < length ranks.now → slice_index sums.new place ≡ sum_by (λ sidx. ranked_loss (sidx_values group.now.perspective group.now.set group.now.periods (amount_at group.now.maxima (group_entries group.now)) group.now.summary sidx) (slice_index ranks.now place)) (sample_sidx group.now.samples) }
{
    for sample in 1..group.samples + 1 {
        add_values(sums, list_at(losses, ranks.len(), sample as usize - 1));
    }
}

/// The means over the samples of the losses of ranks, to the nearest cent, halves up. An error is want of memory.
fn means_of_ranks(
    alloc: Global,
    group: &SummaryCells<'_>,
    ranks: &[u64],
    losses: &[u64],
) -> Result<Vec<u64>, OutOfMemory>
    requires group { IsSummary group.now }
    requires losses { losses.now ≡ group_losses ranks.now group.now }
    ensures value { IfOk result (λ means. means.items ≡ map (ranked_loss (rank_means group.now.perspective group.now.set group.now.periods group.now.samples (amount_at group.now.maxima (group_entries group.now)) group.now.summary)) ranks.now) }
{
    let mut zeros = vec![in alloc; 0u128; ranks.len()]?;
    let sums = zeros.as_mut_slice();
    add_samples(sums, group, ranks, losses);
    means(alloc, sums, group.samples)
}

/// Appends the rows of the curve of the samples' means at each rank, of the summary at a place, where there is a place for each period.
/// Means of later ranks are no greater, so that those of the ranks that the curve asks for are enough. An error is want of memory.
pub(crate) fn append_rank_means(
    out: &mut Bytes,
    alloc: Global,
    placed: &mut [u64],
    group: &SummaryCells<'_>,
    samples: &SampleLosses,
    place: usize,
    returns: &[u32],
) -> Result<(), OutOfMemory>
    requires group { IsSummary group.now }
    requires places { length placed.old ≡ group.now.periods }
    requires returns { All (λ period. 1 ≤ period) returns.now }
    requires samples { HasSummary group.now returns.now place samples.now }
    ensures places { length placed.new ≡ group.now.periods }
    ensures ok { OnOk result (out.new ≡ out.old ++ curve_rows group.now.summary 2 group.now.periods (rank_means group.now.perspective group.now.set group.now.periods group.now.samples (amount_at group.now.maxima (group_entries group.now)) group.now.summary) returns.now) }
{
    let ranks = samples.ranks.as_slice();
    let means = means_of_ranks(
        alloc,
        group,
        ranks,
        samples.of_summary(group.samples, place),
    )?;
    append_ranked_rows(
        out,
        placed,
        group.summary,
        2,
        ranks,
        means.as_slice(),
        returns,
    )
}
