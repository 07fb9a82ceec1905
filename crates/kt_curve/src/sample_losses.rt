//! The losses of the ranks that curves ask for, in each sample of the summaries of a set.
//! The rules: docs/CALCULATION.md, "Kinds of exceedance curves".
ghost use Rattle.std.specs.Prelude.{◌≡◌, ◌+◌, ◌*◌, ◌≤◌, ◌++◌, true, All, IfOk, OnOk, take, drop, length};
ghost use Rattle.kt_period_cells.specs.SummaryRows.{IsPart, IsSummary};
ghost use Rattle.kt_curve.specs.LossesOfSamples.{AreSampleLosses, group_losses, ranks_samples, set_losses};
ghost use Rattle.kt_ranks.specs.Ranks.{Falls};

use crate::sample_amounts::SampleAmounts;
use kt_money::OutOfMemory;
use kt_period_cells::{SetCells, SummaryCells};
use kt_ranks::{append_ranked, ranks_of};
use kt_rec::Curve;
use std::alloc::Global;

/// The losses of ranks in each sample of the summaries of a set, in cents, in one list.
#[derive(Drop)]
pub(crate) struct SampleLosses {
    /// The ranks, falling.
    pub(crate) ranks: Vec<u64>,
    /// Their losses: summary by summary, sample by sample, and rank by rank.
    pub(crate) losses: Vec<u64>,
}

/// One of the lists of so many losses each, that stand one behind the other.
pub(crate) fn list_at(losses: &[u64], width: usize, place: usize) -> &[u64]
    requires { place * width + width ≤ length losses.now }
    ensures value { result.now ≡ take width (drop (place * width) losses.now) }
{
    let start = place * width;
    &losses[start..start + width]
}

/// Whether a curve is made of the losses that each sample has at the ranks.
fn ranks_samples(curve: Curve) -> bool
    ensures value { result ≡ ranks_samples curve }
{
    matches!(
        curve,
        Curve::WheatAep | Curve::WheatOep | Curve::WheatmeanAep | Curve::WheatmeanOep
    )
}

/// Appends the losses of falling ranks in each sample of a summary. An error is want of memory.
fn append_samples(
    losses: &mut Vec<u64>,
    alloc: Global,
    group: &SummaryCells<'_>,
    ranks: &[u64],
) -> Result<(), OutOfMemory>
    requires group { IsSummary group.now }
    requires falls { Falls ranks.now }
    ensures ok { OnOk result (losses.new.items ≡ losses.old.items ++ group_losses ranks.now group.now) }
{
    let mut samples = SampleAmounts::of(alloc, group);
    for sample in 1..group.samples + 1 {
        let mut values = samples.take(alloc, sample)?;
        append_ranked(losses, values.as_mut_slice(), ranks)?;
    }
    Ok(())
}

/// Appends those of each of these summaries of a set. An error is want of memory.
fn append_summaries(
    losses: &mut Vec<u64>,
    alloc: Global,
    part: &SetCells<'_>,
    summaries: &[u32],
    maxima: bool,
    ranks: &[u64],
) -> Result<(), OutOfMemory>
    requires part { IsPart part.now }
    requires falls { Falls ranks.now }
    ensures ok { OnOk result (losses.new.items ≡ losses.old.items ++ set_losses ranks.now part.now maxima summaries.now) }
{
    for summary in summaries {
        let group = part.summary(*summary, maxima);
        append_samples(losses, alloc, &group, ranks)?;
    }
    Ok(())
}

impl SampleLosses {
    /// None, for curves that are made of the cells alone. Asks for no memory.
    fn none(alloc: Global) -> Self {
        SampleLosses {
            ranks: Vec::new(alloc),
            losses: Vec::new(alloc),
        }
    }

    /// Those of a set that curves at these return periods ask for. An error is want of memory.
    pub(crate) fn of_set(
        alloc: Global,
        part: &SetCells<'_>,
        maxima: bool,
        returns: &[u32],
    ) -> Result<Self, OutOfMemory>
        requires part { IsPart part.now }
        requires returns { All (λ period. 1 ≤ period) returns.now }
        ensures value { IfOk result (AreSampleLosses part.now maxima returns.now) }
    {
        let ranks = ranks_of(alloc, u64::from(part.periods), returns)?;
        let summaries = part.summaries();
        let lists = summaries.len().saturating_mul(part.samples as usize);
        let mut losses = Vec::with_capacity(alloc, lists.saturating_mul(ranks.len()))?;
        append_summaries(
            &mut losses,
            alloc,
            part,
            summaries,
            maxima,
            ranks.as_slice(),
        )?;
        Ok(SampleLosses { ranks, losses })
    }

    /// Those that one curve asks for; none where it is made of the cells alone. An error is want of memory.
    pub(crate) fn of_curve(
        alloc: Global,
        part: &SetCells<'_>,
        maxima: bool,
        curve: Curve,
        returns: &[u32],
    ) -> Result<Self, OutOfMemory>
        requires part { IsPart part.now }
        requires returns { All (λ period. 1 ≤ period) returns.now }
        ensures value { IfOk result (λ kept. ranks_samples curve ≡ true → AreSampleLosses part.now maxima returns.now kept) }
    {
        if !ranks_samples(curve) {
            return Ok(SampleLosses::none(alloc));
        }
        SampleLosses::of_set(alloc, part, maxima, returns)
    }

    /// Those of the summary at a place, of so many samples.
    pub(crate) fn of_summary(&self, samples: u32, place: usize) -> &[u64]
        requires { place * (samples * length self.now.ranks.items) + samples * length self.now.ranks.items ≤ length self.now.losses.items }
        ensures value { result.now ≡ take (samples * length self.now.ranks.items) (drop (place * (samples * length self.now.ranks.items)) self.now.losses.items) }
    {
        let width = samples as usize * self.ranks.len();
        list_at(self.losses.as_slice(), width, place)
    }
}
