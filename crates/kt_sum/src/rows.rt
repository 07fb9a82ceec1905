//! The sums of several summaries: where those of a summary stand, and how a record is added to them.
//! The rule: docs/CALCULATION.md, "Summaries".
ghost use Rattle.std.specs.Prelude.{◌≡◌, ℕ, true, ◌+◌, ◌<◌, ◌≤◌, ◌∷◌, [], ◌++◌, nat_eq, List, length, map, All, Option, slice_index};
ghost use Rattle.std.specs.List.{list_any};
ghost use Rattle.kt_rec.specs.Rising.{IsRising};
ghost use Rattle.kt_stream.specs.declared.entry.LossRecord.{LossRecord};
ghost use Rattle.kt_runs.specs.Adding.{AreInside};
ghost use Rattle.kt_runs.specs.RunLosses.{AreWithin};
ghost use Rattle.kt_runs.specs.LaneRows.{pairs_with};
ghost use Rattle.kt_sum.specs.RunSummaries.{IsReadyRow, IsSumOf, IsThere};

use crate::span::Span;
use crate::summary_sums::{SummarySums, add_lane_to, add_to};
use kt_stream::LossRecord;

/// Whether a summary stands at a place.
#[inline]
fn is_at(summaries: &[u32], summary: u32, place: usize) -> bool
    ensures within { result ≡ true → place < length summaries.now }
    ensures value { result ≡ true → slice_index summaries.now place ≡ summary }
{
    place < summaries.len() && summaries[place] == summary
}

/// The place of a summary among rising ones that have it. It is looked for first at a place, and then at the next one.
#[inline]
fn place_near(summaries: &[u32], summary: u32, near: usize) -> usize
    requires rising { IsRising summaries.now }
    requires there { list_any (nat_eq summary) summaries.now ≡ true }
    ensures within { result < length summaries.now }
    ensures value { slice_index summaries.now result ≡ summary }
{
    if is_at(summaries, summary, near) {
        return near;
    }
    let next = near.wrapping_add(1);
    if is_at(summaries, summary, next) {
        return next;
    }
    match summaries.binary_search(&summary) {
        Ok(place) => place,
        Err(_) => unreachable!(),
    }
}

/// Adds the losses of a record to the sums of the summary that was found for its id, if one was, and answers their place. It is
/// looked for near the place of those to which the last record was added.
pub(crate) fn add_entry(
    rows: &mut [SummarySums],
    summaries: &[u32],
    span: Span,
    found: Option<u32>,
    near: usize,
    entry: &LossRecord,
) -> usize
    requires rising { IsRising summaries.now }
    requires rows { map (λ row. row.summary) rows.old ≡ summaries.now }
    requires there { IsThere summaries.now found }
    requires ready { All (IsReadyRow span.width) rows.old }
    requires inside { AreInside span.least span.width entry.now.pairs }
    ensures rows { map (λ row. row.summary) rows.new ≡ summaries.now }
    ensures ready { All (IsReadyRow span.width) rows.new }
    ensures sums { (find : ℕ → Option ℕ) (records : List LossRecord) → find entry.now.id ≡ found → AreWithin (records ++ entry.now ∷ []) → All (IsSumOf span.least span.width find records) rows.old → All (IsSumOf span.least span.width find (records ++ entry.now ∷ [])) rows.new }
{
    let summary = match found {
        Some(summary) => summary,
        None => return near,
    };
    let place = place_near(summaries, summary, near);
    add_to(&mut rows[place], span.least, entry.pairs.as_slice());
    place
}

/// Adds a deviation and the losses of a lane to the sums of the summary that was found for their id, if one was, as `add_entry` does:
/// sums which begin at sidx -2.
pub(crate) fn add_lane_entry(
    rows: &mut [SummarySums],
    summaries: &[u32],
    found: Option<u32>,
    near: usize,
    deviation: u64,
    lane: &[u64],
) -> usize
    requires rising { IsRising summaries.now }
    requires rows { map (λ row. row.summary) rows.old ≡ summaries.now }
    requires there { IsThere summaries.now found }
    requires ready { All (IsReadyRow (length lane.now + 2)) rows.old }
    requires some { 1 ≤ length lane.now }
    requires few { length lane.now ≤ 1001 }
    ensures rows { map (λ row. row.summary) rows.new ≡ summaries.now }
    ensures ready { All (IsReadyRow (length lane.now + 2)) rows.new }
    ensures sums { (find : ℕ → Option ℕ) (records : List LossRecord) (entry : LossRecord) → entry.pairs ≡ pairs_with deviation lane.now → find entry.id ≡ found → AreWithin (records ++ entry ∷ []) → All (IsSumOf 2147483646 (length lane.now + 2) find records) rows.old → All (IsSumOf 2147483646 (length lane.now + 2) find (records ++ entry ∷ [])) rows.new }
{
    let summary = match found {
        Some(summary) => summary,
        None => return near,
    };
    let place = place_near(summaries, summary, near);
    add_lane_to(&mut rows[place], deviation, lane);
    place
}
