//! The means of samples, and the curve of those of each period.
//! The rules: docs/CALCULATION.md, "Kinds of exceedance curves"; docs/OUTPUTS.md, "Exceedance curve tables".
ghost use Rattle.std.specs.Prelude.{◌≡◌, ◌-◌, ◌*◌, ◌≤◌, ◌^◌, ◌++◌, map, All, IfOk, OnOk};
ghost use Rattle.kt_money.specs.Rounding.{half_up};
ghost use Rattle.kt_cell.specs.Amounts.{amount_at};
ghost use Rattle.kt_period_cells.specs.SummaryRows.{group_entries, IsSummary};
ghost use Rattle.kt_ranks.specs.RankedLosses.{curve_rows};
ghost use Rattle.kt_curve.specs.Exceedance.{period_means};

use kt_money::{Bytes, OutOfMemory, div_half_up};
use kt_period_cells::SummaryCells;
use kt_ranks::{add_periods, append_values};
use std::alloc::Global;

/// The means of sums over the samples, to the nearest cent, halves up. An error is want of memory.
pub(crate) fn means(alloc: Global, sums: &[u128], samples: u32) -> Result<Vec<u64>, OutOfMemory>
    requires some { 1 ≤ samples }
    requires few { samples ≤ 1000 }
    requires most { All (λ total. total ≤ samples * (2 ^ 64 - 1)) sums.now }
    ensures value { IfOk result (λ found. found.items ≡ map (λ total. half_up total samples) sums.now) }
{
    let mut found = Vec::new(alloc);
    for total in sums {
        found.push(mean(*total, samples))?;
    }
    Ok(found)
}

/// The mean of a sum over the samples.
fn mean(total: u128, samples: u32) -> u64
    requires some { 1 ≤ samples }
    requires few { samples ≤ 1000 }
    requires most { total ≤ samples * (2 ^ 64 - 1) }
    ensures value { result ≡ half_up total samples }
{
    div_half_up(total, u128::from(samples)) as u64
}

/// Appends the rows of the curve of the means of sums over the samples. An error is want of memory.
fn append_means(
    out: &mut Bytes,
    alloc: Global,
    group: &SummaryCells<'_>,
    sums: &[u128],
    returns: &[u32],
) -> Result<(), OutOfMemory>
    requires periods { group.now.periods ≤ 100000 }
    requires some { 1 ≤ group.now.samples }
    requires few { group.now.samples ≤ 1000 }
    requires most { All (λ total. total ≤ group.now.samples * (2 ^ 64 - 1)) sums.now }
    requires returns { All (λ period. 1 ≤ period) returns.now }
    ensures ok { OnOk result (out.new ≡ out.old ++ curve_rows group.now.summary 2 group.now.periods (map (λ total. half_up total group.now.samples) sums.now) returns.now) }
{
    let mut values = means(alloc, sums, group.samples)?;
    append_values(
        out,
        alloc,
        group.summary,
        2,
        u64::from(group.periods),
        values.as_mut_slice(),
        returns,
    )
}

/// Appends the rows of the curve of the samples' means in each period. An error is want of memory.
pub(crate) fn append_period_means(
    out: &mut Bytes,
    alloc: Global,
    group: &SummaryCells<'_>,
    returns: &[u32],
) -> Result<(), OutOfMemory>
    requires group { IsSummary group.now }
    requires returns { All (λ period. 1 ≤ period) returns.now }
    ensures ok { OnOk result (out.new ≡ out.old ++ curve_rows group.now.summary 2 group.now.periods (period_means group.now.perspective group.now.set group.now.periods group.now.samples (amount_at group.now.maxima (group_entries group.now)) group.now.summary) returns.now) }
{
    let mut zeros = vec![in alloc; 0u128; group.periods as usize]?;
    let sums = zeros.as_mut_slice();
    add_periods(group, sums);
    append_means(out, alloc, group, sums, returns)
}
