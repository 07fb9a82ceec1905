//! The sums of a summary, sidx by sidx.
//! The rules: docs/CALCULATION.md, "Summaries"; docs/STREAMS.md, "Records".
ghost use Rattle.std.specs.Prelude.{◌≡◌, ℕ, All, true, false, ◌+◌, ◌*◌, ◌<◌, ◌≤◌, ◌^◌, ◌∷◌, [], ◌++◌, List, length, map, slice_index, IfOk, OnErr, OnOk};
ghost use Rattle.std.specs.List.{flat_map};
ghost use Rattle.kt_stream.specs.Summary.{summary_bytes};
ghost use Rattle.kt_stream.specs.declared.entry.Pair.{Pair};
ghost use Rattle.kt_runs.specs.Adding.{AreInside, IsAdded};
ghost use Rattle.kt_runs.specs.RunLosses.{loss_of};
ghost use Rattle.kt_runs.specs.Sidx.{sidx_at};
ghost use Rattle.kt_runs.specs.LaneRows.{pairs_with};
ghost use Rattle.kt_sum.specs.RunSummaries.{IsIdle, IsReadyRow, IsZeroRow, exposure_in, record_of, records_of};

use crate::lane_sums::add_lane;
use crate::set_run::SetRun;
use kt_money::Bytes;
use kt_runs::{add_pairs, append_record, pairs_of, summary_front, write_pairs, zeros};
use kt_stream::{Pair, SummaryRecord};
use std::alloc::{AllocError, Global};

/// The place of sidx -2, the least of a stream.
pub(crate) const FIRST: u64 = 2_147_483_646;

/// What the records of a run come to in a summary.
#[derive(Drop)]
pub struct SummarySums {
    /// The summary.
    pub(crate) summary: u32,
    /// Whether a record of the run comes to it; else the sums are 0.
    pub(crate) is_used: bool,
    /// The sums in cents, sidx by sidx.
    pub(crate) sums: Vec<u64>,
}

/// Sums of so many places for each summary, all 0. An error is want of memory.
pub(crate) fn no_sums(
    alloc: Global,
    width: usize,
    summaries: &[u32],
) -> Result<Vec<SummarySums>, AllocError>
    ensures summaries { IfOk result (λ rows. map (λ row. row.summary) rows.items ≡ summaries.now) }
    ensures ready { IfOk result (λ rows. All (IsReadyRow width) rows.items) }
    ensures zeros { IfOk result (λ rows. All (IsZeroRow width) rows.items) }
{
    let mut rows = Vec::with_capacity(alloc, summaries.len())?;
    for summary in summaries {
        let row = SummarySums {
            summary: *summary,
            is_used: false,
            sums: zeros(alloc, width)?,
        };
        rows.push(row)?;
    }
    Ok(rows)
}

/// Adds the losses of pairs to sums, the first of which is for the sidx at the place `least`.
pub(crate) fn add_to(row: &mut SummarySums, least: u64, pairs: &[Pair])
    requires inside { AreInside least (length row.old.sums.items) pairs.now }
    ensures summary { row.new.summary ≡ row.old.summary }
    ensures used { row.new.is_used ≡ true }
    ensures width { length row.new.sums.items ≡ length row.old.sums.items }
    ensures added { ((k : ℕ) → k < length row.old.sums.items → slice_index row.old.sums.items k + loss_of (sidx_at (least + k)) pairs.now < 2 ^ 64) → IsAdded least row.old.sums.items pairs.now row.new.sums.items }
{
    row.is_used = true;
    add_pairs(&mut row.sums, least, pairs);
}

/// Adds a deviation and the losses of a lane to sums, which begin at sidx -2.
pub(crate) fn add_lane_to(row: &mut SummarySums, deviation: u64, lane: &[u64])
    requires some { 1 ≤ length lane.now }
    requires few { length lane.now ≤ 1001 }
    requires width { length row.old.sums.items ≡ length lane.now + 2 }
    ensures summary { row.new.summary ≡ row.old.summary }
    ensures used { row.new.is_used ≡ true }
    ensures width { length row.new.sums.items ≡ length row.old.sums.items }
    ensures added { ((k : ℕ) → k < length row.old.sums.items → slice_index row.old.sums.items k + loss_of (sidx_at (2147483646 + k)) (pairs_with deviation lane.now) < 2 ^ 64) → IsAdded 2147483646 row.old.sums.items (pairs_with deviation lane.now) row.new.sums.items }
{
    row.is_used = true;
    add_lane(&mut row.sums, deviation, lane);
}

/// The record of the sums of a summary, the first of which is for the sidx at the place `least`; `None` where all are 0. An error is
/// want of memory.
pub(crate) fn record_of(
    alloc: Global,
    run: &SetRun<'_>,
    least: u64,
    row: &SummarySums,
) -> Result<Option<SummaryRecord>, AllocError>
    requires idle { IsIdle row.now }
    requires within { least + length row.now.sums.items ≤ 2 ^ 32 }
    ensures value { IfOk result (λ made. made ≡ record_of run.now.event (exposure_in run.now) least row.now) }
{
    if !row.is_used {
        return Ok(None);
    }
    let pairs = pairs_of(alloc, &row.sums, least)?;
    if pairs.as_slice().is_empty() {
        return Ok(None);
    }
    Ok(Some(SummaryRecord {
        event: run.event,
        summary: row.summary,
        exposure: run
            .portfolio
            .exposure(run.perspective, run.set, row.summary),
        pairs,
    }))
}

/// Appends the record of sums, which begin at sidx -2, where one is above 0; the room takes its pairs first. An error is want of memory,
/// and nothing is appended then.
fn put_row(
    run: &SetRun<'_>,
    row: &SummarySums,
    room: &mut [u8],
    out: &mut Bytes,
) -> Result<(), AllocError>
    requires idle { IsIdle row.now }
    requires within { 2147483646 + length row.now.sums.items ≤ 2 ^ 32 }
    requires room { 12 * length row.now.sums.items + 12 ≤ length room.old }
    ensures room { length room.new ≡ length room.old }
    ensures ok { OnOk result (out.new ≡ out.old ++ flat_map summary_bytes (records_of run.now 2147483646 (row.now ∷ []))) }
    ensures unchanged { OnErr result (out.new ≡ out.old) }
{
    if !row.is_used {
        return Ok(());
    }
    let used = write_pairs(room, &row.sums, FIRST);
    if used == 0 {
        return Ok(());
    }
    let exposure = run
        .portfolio
        .exposure(run.perspective, run.set, row.summary);
    let front = summary_front(run.event, row.summary, exposure);
    append_record(out, &front, &room[..used])?;
    Ok(())
}

/// Makes the sums 0.
fn clear(row: &mut SummarySums)
    requires idle { IsIdle row.old }
    ensures summary { row.new.summary ≡ row.old.summary }
    ensures zeros { IsZeroRow (length row.old.sums.items) row.new }
{
    if row.is_used {
        row.is_used = false;
        row.sums.fill(0);
    }
}

/// Appends the records of the sums of summaries, as `put_row` does. An error is want of memory, and nothing is appended then.
pub(crate) fn put_rows(
    run: &SetRun<'_>,
    rows: &[SummarySums],
    room: &mut [u8],
    out: &mut Bytes,
) -> Result<(), AllocError>
    requires idle { All IsIdle rows.now }
    requires within { All (λ row. 2147483646 + length row.sums.items ≤ 2 ^ 32) rows.now }
    requires room { All (λ row. 12 * length row.sums.items + 12 ≤ length room.old) rows.now }
    ensures room { length room.new ≡ length room.old }
    ensures ok { OnOk result (out.new ≡ out.old ++ flat_map summary_bytes (records_of run.now 2147483646 rows.now)) }
    ensures unchanged { OnErr result (out.new ≡ out.old) }
{
    let whole = out.len();
    for row in rows {
        if let Err(stop) = put_row(run, row, room, out) {
            out.truncate(whole);
            return Err(stop);
        }
    }
    Ok(())
}

/// Makes the sums of summaries 0.
pub(crate) fn clear_rows(rows: &mut [SummarySums])
    requires idle { All IsIdle rows.old }
    ensures summaries { map (λ row. row.summary) rows.new ≡ map (λ row. row.summary) rows.old }
    ensures zeros { (width : ℕ) → All (IsReadyRow width) rows.old → All (IsZeroRow width) rows.new }
{
    for place in 0..rows.len() {
        clear(&mut rows[place]);
    }
}
