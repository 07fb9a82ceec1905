//! The summaries of a run.
//! The rule: docs/CALCULATION.md, "Summaries".
ghost use Rattle.std.specs.Prelude.{◌≡◌, ℕ, ◌+◌, ◌≤◌, ◌^◌, length, map, All, Option, IfOk};
ghost use Rattle.std.specs.List.{filter_map};
ghost use Rattle.kt_rec.specs.Rising.{IsRising};
ghost use Rattle.kt_stream.specs.Losses.{IsLoss};
ghost use Rattle.kt_stream.specs.Summary.{IsSummary};
ghost use Rattle.kt_tables.specs.SetRows.{AreFound};
ghost use Rattle.kt_runs.specs.RunLosses.{AreWithin};
ghost use Rattle.kt_sum.specs.Adding.{IsSpan};
ghost use Rattle.kt_sum.specs.RunSummaries.{IsReadyRow, IsSumOf, IsThere, IsZeroRow, records_of};
ghost use Rattle.kt_sum.specs.Summaries.{run_summaries};

use crate::rows::add_entry;
use crate::set_run::SetRun;
use crate::span::{Span, span_of};
use crate::summary_sums::{SummarySums, no_sums, record_of};
use kt_index::keep_once;
use kt_rec::Perspective;
use kt_runs::{event_of, ids_of};
use kt_stream::{LossRecord, Records, SummaryRecord};
use kt_tables::{Portfolio, SetSummaries};
use std::alloc::{AllocError, Global};

/// The summaries that a set has for ids, id by id.
pub(crate) fn found_of(
    alloc: Global,
    summaries: &SetSummaries,
    ids: &[u32],
) -> Result<Vec<Option<u32>>, AllocError>
    ensures value { IfOk result (λ found. (find : ℕ → Option ℕ) → AreFound find summaries.now → found.items ≡ map find ids.now) }
{
    let mut found = Vec::with_capacity(alloc, ids.len())?;
    for id in ids {
        found.push(summaries.of(*id))?;
    }
    Ok(found)
}

/// The summaries among what was found.
fn known_of(alloc: Global, found: &[Option<u32>]) -> Result<Vec<u32>, AllocError>
    ensures { IfOk result (λ summaries. summaries.items ≡ filter_map (λ one. one) found.now) }
{
    found.iter().filter_map(|one| *one).collect(alloc)
}

/// The summaries among what was found, by rising number.
pub(crate) fn rising_of(alloc: Global, found: &[Option<u32>]) -> Result<Vec<u32>, AllocError>
    ensures rising { IfOk result (λ summaries. IsRising summaries.items) }
    ensures there { IfOk result (λ summaries. All (IsThere summaries.items) found.now) }
{
    let mut summaries = known_of(alloc, found)?;
    keep_once(&mut summaries);
    Ok(summaries)
}

/// Adds the losses of records to the sums of the summaries that were found for their ids.
fn add_records(
    rows: &mut [SummarySums],
    summaries: &[u32],
    span: Span,
    found: &[Option<u32>],
    records: &[LossRecord],
)
    requires rising { IsRising summaries.now }
    requires rows { map (λ row. row.summary) rows.old ≡ summaries.now }
    requires there { All (IsThere summaries.now) found.now }
    requires found { length found.now ≡ length records.now }
    requires losses { AreWithin records.now }
    requires span { IsSpan records.now span.least span.width }
    requires ready { All (IsReadyRow span.width) rows.old }
    requires zeros { All (IsZeroRow span.width) rows.old }
    ensures rows { map (λ row. row.summary) rows.new ≡ summaries.now }
    ensures ready { All (IsReadyRow span.width) rows.new }
    ensures sums { (find : ℕ → Option ℕ) → found.now ≡ map (λ entry. find entry.id) records.now → All (IsSumOf span.least span.width find records.now) rows.new }
{
    let mut near = 0;
    for place in 0..records.len() {
        near = add_entry(rows, summaries, span, found[place], near, &records[place]);
    }
}

/// The records of the sums of summaries, in their order, where one of the sums is above 0.
pub(crate) fn made_of(
    alloc: Global,
    run: &SetRun<'_>,
    span: Span,
    rows: &[SummarySums],
) -> Result<Vec<SummaryRecord>, AllocError>
    requires within { span.least + span.width ≤ 2 ^ 32 }
    requires ready { All (IsReadyRow span.width) rows.now }
    ensures value { IfOk result (λ made. made.items ≡ records_of run.now span.least rows.now) }
{
    let mut made = Vec::with_capacity(alloc, rows.len())?;
    for row in rows {
        if let Some(entry) = record_of(alloc, run, span.least, row)? {
            made.push(entry)?;
        }
    }
    Ok(made)
}

/// The records of the summaries of a set, as `summarise` makes them, for records whose sidx all stand in a span.
fn summaries_in(
    alloc: Global,
    portfolio: &Portfolio,
    perspective: Perspective,
    set: u32,
    span: Span,
    records: &[LossRecord],
) -> Result<Records<SummaryRecord>, AllocError>
    requires losses { AreWithin records.now }
    requires span { IsSpan records.now span.least span.width }
    ensures value { IfOk result (λ made. made ≡ run_summaries perspective portfolio.now.rows portfolio.now.need.rule set records.now) }
    ensures good { (samples : ℕ) → All (IsLoss samples) records.now → IfOk result (λ made. All (IsSummary samples) made) }
{
    portfolio.keeps_summaries();
    let run = SetRun {
        portfolio,
        perspective,
        set,
        event: event_of(records),
    };
    let ids = ids_of(alloc, records)?;
    let found = found_of(alloc, &portfolio.set_summaries(perspective, set), &ids)?;
    let summaries = rising_of(alloc, &found)?;
    let mut rows = no_sums(alloc, span.width, &summaries)?;
    add_records(&mut rows, &summaries, span, &found, records);
    let made = made_of(alloc, &run, span, &rows)?;
    Ok(Records::from_vec(made))
}

/// The records of the summaries of a set, by rising summary, for the records of one run: one event, rising ids, rising sidx.
/// The losses of the run add to at most 10^16 cents at each sidx. A summary to which no id of the run is mapped, and one
/// whose losses add to 0, has no record. An error is want of memory.
pub fn summarise(
    alloc: Global,
    portfolio: &Portfolio,
    perspective: Perspective,
    set: u32,
    records: &[LossRecord],
) -> Result<Records<SummaryRecord>, AllocError>
    requires losses { AreWithin records.now }
    ensures value { IfOk result (λ made. made ≡ run_summaries perspective portfolio.now.rows portfolio.now.need.rule set records.now) }
    ensures good { (samples : ℕ) → All (IsLoss samples) records.now → IfOk result (λ made. All (IsSummary samples) made) }
{
    let span = span_of(records);
    summaries_in(alloc, portfolio, perspective, set, span, records)
}
