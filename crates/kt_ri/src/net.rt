//! The net and the ceded records of a run.
//! The rule: docs/FINANCIAL_MODULE.md, "Reinsurance".
ghost use Rattle.std.specs.Prelude.{◌≡◌, ◌+◌, ◌≤◌, ◌<◌, ◌++◌, ℕ, true, List, [], length, slice_index, slice_index_or, All, IfOk, OnOk};
ghost use Rattle.std.specs.List.{cons_option};
ghost use Rattle.kt_stream.specs.Losses.{IsLoss};
ghost use Rattle.kt_stream.specs.declared.entry.LossRecord.{LossRecord};
ghost use Rattle.kt_runs.specs.RunLosses.{AreWithin};
ghost use Rattle.kt_fmtree.specs.Tree.{Tree};
ghost use Rattle.kt_fmtree.specs.Parts.{IsProgramme};
ghost use Rattle.kt_lanes.specs.Lanes.{AreWide, IsLane};
ghost use Rattle.kt_runs.specs.Less.{IsPlaceIn, amount_in};
ghost use Rattle.kt_ri.specs.Ceded.{AreCeded, AreRows, part_behind, record_behind, records_behind};

use crate::ceding::CedingProgramme;
use crate::places::{place_near, record_places};
use kt_fmtree::zeros;
use kt_lanes::Lanes;
use kt_runs::{LossLanes, RunLosses};
use std::alloc::{AllocError, Global};

/// What is left of a loss of which so much is ceded, or that.
fn part_behind(left: bool, loss: u64, ceded: u64) -> u64
    ensures value { result ≡ part_behind left loss ceded }
{
    if left {
        loss.saturating_sub(ceded)
    } else {
        ceded
    }
}

/// What is left of losses of which so much is ceded, or that, in the place of the losses.
fn take_ceded(losses: &mut [u64], ceded: &[u64], left: bool)
    requires same { length ceded.now ≡ length losses.old }
    ensures value { IsLane (length losses.old) (λ row. part_behind left (slice_index losses.old row) (slice_index ceded.now row)) losses.new }
{
    for row in 0..losses.len() {
        losses[row] = part_behind(left, losses[row], ceded[row]);
    }
}

/// What is left of losses of which nothing is ceded, or nothing, in the place of the losses.
fn take_none(losses: &mut [u64], left: bool)
    ensures value { IsLane (length losses.old) (λ row. part_behind left (slice_index losses.old row) 0) losses.new }
{
    for row in 0..losses.len() {
        losses[row] = part_behind(left, losses[row], 0);
    }
}

/// What is left of losses of an id whose place may be absent, or what it cedes, in the place of the losses.
fn take_behind(losses: &mut [u64], ceded: &Lanes, place: Option<usize>, left: bool)
    requires place { IsPlaceIn ceded.now place }
    requires wide { AreWide (length losses.old) ceded.now }
    ensures value { IsLane (length losses.old) (λ row. part_behind left (slice_index losses.old row) (amount_in ceded.now place row)) losses.new }
{
    match place {
        Some(place) => take_ceded(losses, ceded.lane(place), left),
        None => take_none(losses, left),
    }
}

/// Puts what is left of the record in a place, or what its id cedes, behind others, where that is something; the lane takes it first.
fn keep_behind<R: RunLosses>(
    stage: &CedingProgramme,
    samples: u32,
    ceded: &Lanes,
    run: &R,
    at: usize,
    left: bool,
    lane: &mut [u64],
    made: &mut LossLanes,
) -> Result<(), AllocError>
    requires samples { samples ≤ 1000 }
    requires rows { AreRows (length stage.now.ids) samples ceded.now }
    requires has_rows { R.has_rows samples run.now }
    requires records { All (IsLoss samples) (R.records_of run.now) }
    requires within { AreWithin (R.records_of run.now) }
    requires at { at < length (R.records_of run.now) }
    requires lane { length lane.old ≡ samples + 1 }
    requires made { made.old.rows ≡ samples + 1 }
    ensures lane { length lane.new ≡ length lane.old }
    ensures made { made.new.rows ≡ made.old.rows }
    ensures ok { OnOk result ((d : LossRecord) (tree : Tree) (rule : ℕ) (records : List LossRecord) → IsProgramme tree stage.now → AreCeded stage.now rule samples records ceded.now → made.new.records ≡ made.old.records ++ cons_option (record_behind left tree rule samples records (slice_index_or (R.records_of run.now) at d)) []) }
{
    stage.is_ceding();
    let id = run.id_at(at);
    let place = place_near(stage.ids(), id, at);
    run.take_at(at, samples, lane);
    take_behind(lane, ceded, place, left);
    made.put(run.event_at(at), id, lane)?;
    Ok(())
}

/// What is left of the records of a run, or what their ids cede, by lanes.
pub(crate) fn lanes_behind<R: RunLosses>(
    alloc: Global,
    stage: &CedingProgramme,
    samples: u32,
    ceded: &Lanes,
    run: &R,
    left: bool,
) -> Result<LossLanes, AllocError>
    requires samples { samples ≤ 1000 }
    requires rows { AreRows (length stage.now.ids) samples ceded.now }
    requires has_rows { R.has_rows samples run.now }
    requires records { All (IsLoss samples) (R.records_of run.now) }
    requires within { AreWithin (R.records_of run.now) }
    ensures rows { IfOk result (λ made. made.rows ≡ samples + 1) }
    ensures value { IfOk result (λ made. (tree : Tree) (rule : ℕ) → IsProgramme tree stage.now → AreCeded stage.now rule samples (R.records_of run.now) ceded.now → made.records ≡ records_behind left tree rule samples (R.records_of run.now)) }
{
    let rows = samples as usize + 1;
    let mut made = LossLanes::with_room(alloc, run.count(), rows)?;
    let mut lane = zeros(alloc, rows)?;
    for at in 0..run.count() {
        keep_behind(stage, samples, ceded, run, at, left, &mut lane, &mut made)?;
    }
    Ok(made)
}

/// What is left of losses by lanes, where so much is ceded, in the place of the losses.
pub(crate) fn lanes_left(
    alloc: Global,
    stage: &CedingProgramme,
    samples: u32,
    ceded: &Lanes,
    losses: LossLanes,
) -> Result<LossLanes, AllocError>
    requires rows { AreRows (length stage.now.ids) samples ceded.now }
    requires has_rows { losses.rows ≡ samples + 1 }
    ensures rows { IfOk result (λ made. made.rows ≡ samples + 1) }
    ensures value { IfOk result (λ made. (tree : Tree) (rule : ℕ) → IsProgramme tree stage.now → AreCeded stage.now rule samples losses.records ceded.now → made.records ≡ records_behind true tree rule samples losses.records) }
{
    stage.is_ceding();
    let places = record_places(alloc, stage.ids(), &losses)?;
    losses.less(alloc, ceded, &places)
}
