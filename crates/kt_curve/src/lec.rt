//! The tables of exceedance curves.
//! The rules: docs/CALCULATION.md, "Exceedance curves"; docs/OUTPUTS.md, "Exceedance curve tables".
ghost use Rattle.std.specs.Prelude.{◌≡◌, ◌≤◌, ℕ, List, ◌++◌, length, true, All, IfOk, OnOk, OnErr};
ghost use Rattle.std.specs.List.{flat_map};
ghost use Rattle.kt_cell.specs.Losses.{Added, all_losses};
ghost use Rattle.kt_cell.specs.Standing.{KeptCells, StandsFor};
ghost use Rattle.kt_rec.specs.declared.perspective.Perspective.{Perspective};
ghost use Rattle.kt_cell.specs.Amounts.{amount_at};
ghost use Rattle.kt_period_cells.specs.SummaryRows.{group_entries, part_entries, IsOwnSet, IsPart, IsSummary};
ghost use Rattle.kt_curve.specs.Exceedance.{lec_heading_text, by_sidx, takes_maxima, lec_rows, exceedance_rows};
ghost use Rattle.kt_curve.specs.LossesOfSamples.{AreSampleLosses, HasSummary, ranks_samples};

use crate::kinds::append_full;
use crate::mean_curves::append_period_means;
use crate::rank_curves::{append_rank_means, append_wheat};
use crate::sample_losses::SampleLosses;
use kt_money::{Bytes, OutOfMemory};
use kt_period_cells::{Cells, SetCells, SummaryCells};
use kt_rec::{Curve, Perspective};
use std::alloc::Global;

/// Whether the table of a curve names a sidx in each row, or a type.
fn is_by_sidx(curve: Curve) -> bool
    ensures value { result ≡ by_sidx curve }
{
    matches!(curve, Curve::WheatAep | Curve::WheatOep)
}

/// The first line of the table of a curve, with its LF: the names of the columns.
pub fn lec_heading(curve: Curve) -> &'static [u8]
    ensures value { result.now ≡ lec_heading_text (by_sidx curve) }
{
    if is_by_sidx(curve) {
        b"summary_id,sidx,return_period,loss\n"
    } else {
        b"summary_id,type,return_period,loss\n"
    }
}

/// Whether a curve takes the maxima of the periods, or their totals.
pub fn takes_maxima(curve: Curve) -> bool
    ensures value { result ≡ takes_maxima curve }
{
    matches!(
        curve,
        Curve::FullOep | Curve::SampleOep | Curve::WheatOep | Curve::WheatmeanOep
    )
}

/// Appends the rows of the summary at a place, where there is a place for each period. An error is want of memory.
fn append_group(
    out: &mut Bytes,
    alloc: Global,
    placed: &mut [u64],
    group: &SummaryCells<'_>,
    samples: &SampleLosses,
    place: usize,
    curve: Curve,
    returns: &[u32],
) -> Result<(), OutOfMemory>
    requires group { IsSummary group.now }
    requires places { length placed.old ≡ group.now.periods }
    requires returns { All (λ period. 1 ≤ period) returns.now }
    requires samples { ranks_samples curve ≡ true → HasSummary group.now returns.now place samples.now }
    ensures places { length placed.new ≡ group.now.periods }
    ensures ok { OnOk result (out.new ≡ out.old ++ lec_rows curve group.now.perspective group.now.set group.now.periods group.now.samples (amount_at group.now.maxima (group_entries group.now)) returns.now group.now.summary) }
{
    match curve {
        Curve::FullAep | Curve::FullOep => append_full(out, alloc, group, returns),
        Curve::SampleAep | Curve::SampleOep => append_period_means(out, alloc, group, returns),
        Curve::WheatAep | Curve::WheatOep => {
            append_wheat(out, placed, group, samples, place, returns)
        }
        Curve::WheatmeanAep | Curve::WheatmeanOep => {
            append_rank_means(out, alloc, placed, group, samples, place, returns)
        }
    }
}

/// Appends the rows of the summaries of a perspective and set, of the maxima or the totals. An error is want of memory.
fn append_groups(
    out: &mut Bytes,
    alloc: Global,
    part: &SetCells<'_>,
    summaries: &[u32],
    samples: &SampleLosses,
    maxima: bool,
    curve: Curve,
    returns: &[u32],
) -> Result<(), OutOfMemory>
    requires part { IsPart part.now }
    requires summaries { summaries.now ≡ part.now.ids.items }
    requires returns { All (λ period. 1 ≤ period) returns.now }
    requires samples { ranks_samples curve ≡ true → AreSampleLosses part.now maxima returns.now samples.now }
    ensures ok { OnOk result (out.new ≡ out.old ++ flat_map (λ summary. lec_rows curve part.now.perspective part.now.set part.now.periods part.now.samples (amount_at maxima (part_entries part.now summary)) returns.now summary) summaries.now) }
{
    let mut zeros = vec![in alloc; 0u64; part.periods as usize]?;
    let placed = zeros.as_mut_slice();
    for (place, summary) in summaries.iter().enumerate() {
        let group = part.summary(*summary, maxima);
        append_group(out, alloc, placed, &group, samples, place, curve, returns)?;
    }
    Ok(())
}

/// The rows of a curve of a perspective and set, of the maxima or the totals. An error is want of memory.
pub(crate) fn curve_text(
    alloc: Global,
    part: &SetCells<'_>,
    samples: &SampleLosses,
    maxima: bool,
    curve: Curve,
    returns: &[u32],
) -> Result<Bytes, OutOfMemory>
    requires part { IsPart part.now }
    requires returns { All (λ period. 1 ≤ period) returns.now }
    requires samples { ranks_samples curve ≡ true → AreSampleLosses part.now maxima returns.now samples.now }
    ensures { IfOk result (λ text. (kept : KeptCells) (perspective : Perspective) (set : ℕ) (history : List Added) → IsOwnSet kept perspective set part.now → maxima ≡ takes_maxima curve → StandsFor history kept → text ≡ exceedance_rows curve perspective set kept.periods kept.samples (all_losses history) returns.now) }
{
    let mut text = Bytes::new(alloc);
    append_groups(
        &mut text,
        alloc,
        part,
        part.summaries(),
        samples,
        maxima,
        curve,
        returns,
    )?;
    Ok(text)
}

/// The rows of a perspective and set. An error is want of memory.
fn set_curves(
    cells: &Cells,
    perspective: Perspective,
    set: u32,
    curve: Curve,
    returns: &[u32],
) -> Result<Bytes, OutOfMemory>
    requires { All (λ period. 1 ≤ period) returns.now }
    ensures { IfOk result (λ text. (history : List Added) → StandsFor history cells.now → text ≡ exceedance_rows curve perspective set cells.now.periods cells.now.samples (all_losses history) returns.now) }
{
    let alloc = cells.alloc();
    let part = cells.of_set(perspective, set)?;
    let maxima = takes_maxima(curve);
    let samples = SampleLosses::of_curve(alloc, &part, maxima, curve, returns)?;
    curve_text(alloc, &part, &samples, maxima, curve, returns)
}

/// Appends the rows of an exceedance curve of a perspective and set: for each summary with a cell, by rising id, and for each
/// type or sidx the loss in cents that is reached once in so many periods, at each return period of `returns` that is at most
/// the number of ranked values, in their order. Each return period is above 0. An error is want of memory, and `out` is then
/// as it was.
pub fn lec_text(
    out: &mut Bytes,
    cells: &Cells,
    perspective: Perspective,
    set: u32,
    curve: Curve,
    returns: &[u32],
) -> Result<(), OutOfMemory>
    requires { All (λ period. 1 ≤ period) returns.now }
    ensures ok { (history : List Added) → StandsFor history cells.now → OnOk result (out.new ≡ out.old ++ exceedance_rows curve perspective set cells.now.periods cells.now.samples (all_losses history) returns.now) }
    ensures unchanged { OnErr result (out.new ≡ out.old) }
{
    let text = set_curves(cells, perspective, set, curve, returns)?;
    out.append(text.as_slice())
}
