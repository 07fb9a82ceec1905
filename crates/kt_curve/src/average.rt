//! The table of average annual losses.
//! The rules: docs/CALCULATION.md, "Average annual loss"; docs/OUTPUTS.md, "Average annual loss table".
ghost use Rattle.std.specs.Prelude.{◌≡◌, ◌+◌, ◌*◌, ◌≤◌, ◌^◌, false, List, ◌++◌, map, sum, sum_by, length, All, IfOk, OnOk, OnErr, if◌then◌else◌};
ghost use Rattle.std.specs.List.{flat_map};
ghost use Rattle.kt_money.specs.Rounding.{mean_of, deviation_of};
ghost use Rattle.kt_curve.specs.Grid.{sidx_of_kind, keys_for, moments_of};
ghost use Rattle.kt_cell.specs.Sets.{same_bool};
ghost use Rattle.kt_cell.specs.Losses.{Added, all_losses};
ghost use Rattle.kt_cell.specs.Standing.{StandsFor, most_total};
ghost use Rattle.kt_cell.specs.Amounts.{amount_at};
ghost use Rattle.kt_period_cells.specs.SummaryRows.{group_entries, part_entries, IsPart, IsSummary};
ghost use Rattle.kt_curve.specs.Average.{aal_heading_text, aal_row, aal_rows, average_annual_loss_rows};

use kt_money::{Bytes, MeanSd, OutOfMemory, Row, mean_sd};
use kt_period_cells::{Cells, SetCells, SummaryCells};
use kt_ranks::kind_amounts;
use kt_rec::Perspective;
use std::alloc::Global;

/// The first line of a table of average annual losses, with its LF: the names of the columns.
pub fn aal_heading() -> &'static [u8]
    ensures value { result.now ≡ aal_heading_text }
{
    b"summary_id,type,mean,standard_deviation\n"
}

/// The mean and the deviation of `count` amounts, those that are not listed being 0.
fn moments(amounts: &[u64], count: u64) -> MeanSd
    requires some { 1 ≤ count }
    requires many { count ≤ 10 ^ 8 }
    requires few { length amounts.now ≤ count }
    requires most { All (λ amount. amount ≤ most_total) amounts.now }
    ensures mean { result.mean ≡ mean_of count (sum amounts.now) }
    ensures sd { result.sd ≡ deviation_of count (sum amounts.now) (sum_by (λ amount. amount * amount) amounts.now) }
{
    let mut total = 0u128;
    let mut squares = 0u128;
    for amount in amounts {
        let wide = u128::from(*amount);
        total += wide;
        squares += wide * wide;
    }
    mean_sd(count, total, squares)
}

/// How many totals there are over all periods: of the mean, or of all samples.
pub(crate) fn count_of(periods: u32, samples: u32, mean: bool) -> u64
    requires periods { periods ≤ 100000 }
    requires samples { samples ≤ 1000 }
    ensures { result ≡ (if mean then periods else periods * samples) }
{
    if mean {
        u64::from(periods)
    } else {
        u64::from(periods) * u64::from(samples)
    }
}

/// The mean and the deviation of a summary's amounts over all periods: those of the mean, or those of all samples. An error
/// is want of memory.
fn group_moments(alloc: Global, group: &SummaryCells<'_>, mean: bool) -> Result<MeanSd, OutOfMemory>
    requires { IsSummary group.now }
    ensures { IfOk result (λ moments. moments ≡ moments_of (if mean then group.now.periods else group.now.periods * group.now.samples) (map (amount_at group.now.maxima (group_entries group.now)) (keys_for group.now.perspective group.now.set group.now.summary (sidx_of_kind mean group.now.samples) group.now.periods))) }
{
    let amounts = kind_amounts(group, alloc, mean)?;
    let count = count_of(group.periods, group.samples, mean);
    Ok(moments(amounts.as_slice(), count))
}

/// Appends a row: the summary id, the type, the mean and the deviation. An error is want of memory.
fn append_row(out: &mut Bytes, summary: u32, kind: u32, moments: MeanSd) -> Result<(), OutOfMemory>
    ensures ok { OnOk result (out.new ≡ out.old ++ aal_row summary kind moments) }
{
    let mut row = Row::new();
    row.put_byte(b'\n');
    row.put_money(moments.sd);
    row.put_byte(b',');
    row.put_money(moments.mean);
    row.put_byte(b',');
    row.put_count(u64::from(kind));
    row.put_byte(b',');
    row.put_count(u64::from(summary));
    out.append(row.as_slice())
}

/// Appends the two rows of a summary. An error is want of memory.
fn append_summary(
    out: &mut Bytes,
    alloc: Global,
    group: &SummaryCells<'_>,
) -> Result<(), OutOfMemory>
    requires group { IsSummary group.now }
    ensures ok { OnOk result (out.new ≡ out.old ++ aal_rows group.now.perspective group.now.set group.now.periods group.now.samples (amount_at group.now.maxima (group_entries group.now)) group.now.summary) }
{
    let analytical = group_moments(alloc, group, true)?;
    let sample = group_moments(alloc, group, false)?;
    append_row(out, group.summary, 1, analytical)?;
    append_row(out, group.summary, 2, sample)
}

/// Appends the rows of the summaries of a perspective and set. An error is want of memory.
fn append_rows(
    out: &mut Bytes,
    alloc: Global,
    part: &SetCells<'_>,
    summaries: &[u32],
) -> Result<(), OutOfMemory>
    requires part { IsPart part.now }
    ensures ok { OnOk result (out.new ≡ out.old ++ flat_map (λ summary. aal_rows part.now.perspective part.now.set part.now.periods part.now.samples (amount_at false (part_entries part.now summary)) summary) summaries.now) }
{
    for summary in summaries {
        let group = part.summary(*summary, false);
        append_summary(out, alloc, &group)?;
    }
    Ok(())
}

/// Appends the rows of average annual loss of a perspective and set: for each summary with a cell, by rising id, the mean and
/// the deviation in cents over the totals of all periods, of the mean and of all samples. An error is want of memory, and
/// `out` is then as it was.
pub fn aal_text(
    out: &mut Bytes,
    cells: &Cells,
    perspective: Perspective,
    set: u32,
) -> Result<(), OutOfMemory>
    ensures ok { (history : List Added) → StandsFor history cells.now → OnOk result (out.new ≡ out.old ++ average_annual_loss_rows perspective set cells.now.periods cells.now.samples (all_losses history)) }

    ensures unchanged { OnErr result (out.new ≡ out.old) }
{
    let text = set_text(cells, perspective, set)?;
    out.append(text.as_slice())
}

/// The rows of a perspective and set. An error is want of memory.
fn set_text(cells: &Cells, perspective: Perspective, set: u32) -> Result<Bytes, OutOfMemory>
    ensures { IfOk result (λ text. (history : List Added) → StandsFor history cells.now → text ≡ average_annual_loss_rows perspective set cells.now.periods cells.now.samples (all_losses history)) }
{
    let part = cells.of_set(perspective, set)?;
    let mut text = Bytes::new(cells.alloc());
    append_rows(&mut text, cells.alloc(), &part, part.summaries())?;
    Ok(text)
}
