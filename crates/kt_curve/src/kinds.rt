//! The full curves of a summary.
//! The rules: docs/CALCULATION.md, "Kinds of exceedance curves"; docs/OUTPUTS.md, "Exceedance curve tables".
ghost use Rattle.std.specs.Prelude.{◌≡◌, ◌*◌, ◌≤◌, ◌++◌, map, if◌then◌else◌, All, OnOk};
ghost use Rattle.kt_curve.specs.Grid.{keys_for, sidx_of_kind};
ghost use Rattle.kt_cell.specs.Amounts.{amount_at};
ghost use Rattle.kt_period_cells.specs.SummaryRows.{group_entries, IsSummary};
ghost use Rattle.kt_ranks.specs.RankedLosses.{curve_rows};
ghost use Rattle.kt_curve.specs.Exceedance.{full_rows};

use crate::average::count_of;
use kt_money::{Bytes, OutOfMemory};
use kt_period_cells::SummaryCells;
use kt_ranks::{append_values, kind_amounts};
use std::alloc::Global;

/// Appends the rows of one type of a full curve. An error is want of memory.
fn append_kind(
    out: &mut Bytes,
    alloc: Global,
    group: &SummaryCells<'_>,
    column: u32,
    mean: bool,
    returns: &[u32],
) -> Result<(), OutOfMemory>
    requires group { IsSummary group.now }
    requires returns { All (λ period. 1 ≤ period) returns.now }
    ensures ok { OnOk result (out.new ≡ out.old ++ curve_rows group.now.summary column (if mean then group.now.periods else group.now.periods * group.now.samples) (map (amount_at group.now.maxima (group_entries group.now)) (keys_for group.now.perspective group.now.set group.now.summary (sidx_of_kind mean group.now.samples) group.now.periods)) returns.now) }
{
    let mut values = kind_amounts(group, alloc, mean)?;
    let count = count_of(group.periods, group.samples, mean);
    append_values(
        out,
        alloc,
        group.summary,
        column,
        count,
        values.as_mut_slice(),
        returns,
    )
}

/// Appends the rows of a full curve. An error is want of memory.
pub(crate) fn append_full(
    out: &mut Bytes,
    alloc: Global,
    group: &SummaryCells<'_>,
    returns: &[u32],
) -> Result<(), OutOfMemory>
    requires group { IsSummary group.now }
    requires returns { All (λ period. 1 ≤ period) returns.now }
    ensures ok { OnOk result (out.new ≡ out.old ++ full_rows group.now.perspective group.now.set group.now.periods group.now.samples (amount_at group.now.maxima (group_entries group.now)) returns.now group.now.summary) }
{
    append_kind(out, alloc, group, 1, true, returns)?;
    append_kind(out, alloc, group, 2, false, returns)
}
