//! The losses of a run row by row: row 0 is that of the mean, and each row from 1 up is that of the sample with its number.
//! The rule: docs/FINANCIAL_MODULE.md, "Insured losses".
ghost use Rattle.std.specs.Prelude.{◌≡◌, ℕ, ℤ, ◌+◌, ◌<◌, ◌≤◌, ◌^◌, length, map, All, IfOk, slice_index};
ghost use Rattle.std.specs.List.{AllByRecursion};
ghost use Rattle.kt_stream.specs.Losses.{IsLoss};
ghost use Rattle.kt_stream.specs.Pairs.{IsPair};
ghost use Rattle.kt_runs.specs.RunLosses.{AreWithin, loss_of};
ghost use Rattle.kt_runs.specs.Sidx.{sidx_at};
ghost use Rattle.kt_rec.specs.Rising.{IsRising};
ghost use Rattle.kt_rec.specs.ById.{with_more};
ghost use Rattle.kt_lanes.specs.Lanes.{AreLanes, AreWide, IsLane, column};
ghost use Rattle.kt_runs.specs.Records.{ids_of};
ghost use Rattle.kt_runs.specs.LaneRows.{row_place};
ghost use Rattle.kt_runs.specs.Taken.{AreIdLanes};

use crate::run_entry::RunEntry;
use crate::sidx::place_of;
use kt_lanes::{Amounts, Lanes, add_amounts_by_id};
use kt_stream::{LossRecord, Pair};
use std::alloc::{AllocError, Global};

/// The place of sidx -2, which has no row.
const FIRST: u32 = 2_147_483_646;

/// The place of sidx 0: those of the samples come behind it.
const MIDDLE: u32 = 2_147_483_648;

/// Adds the losses of pairs to a lane, row by row.
fn add_losses(lane: &mut [u64], samples: u32, pairs: &[Pair])
    requires samples { samples ≤ 1000 }
    requires wide { length lane.old ≡ samples + 1 }
    requires pairs { AllByRecursion (IsPair samples) pairs.now }
    requires few { (row : ℕ) → row < samples + 1 → slice_index lane.old row + loss_of (sidx_at (row_place row)) pairs.now < 2 ^ 64 }
    ensures value { IsLane (samples + 1) (λ row. slice_index lane.old row + loss_of (sidx_at (row_place row)) pairs.now) lane.new }
{
    for pair in pairs {
        let place = place_of(pair);
        if place > FIRST {
            lane[place.saturating_sub(MIDDLE) as usize] += pair.loss;
        }
    }
}

/// Puts the losses of pairs in cents, row by row, in the place of what a lane has.
pub(crate) fn take_losses(lane: &mut [u64], samples: u32, pairs: &[Pair])
    requires samples { samples ≤ 1000 }
    requires wide { length lane.old ≡ samples + 1 }
    requires pairs { AllByRecursion (IsPair samples) pairs.now }
    requires few { (sidx : ℤ) → loss_of sidx pairs.now ≤ 10000000000000000 }
    ensures value { IsLane (samples + 1) (λ row. loss_of (sidx_at (row_place row)) pairs.now) lane.new }
{
    lane.fill(0);
    add_losses(lane, samples, pairs);
}

/// The ids of records, in their order. An error is want of memory.
pub fn ids_of<T: RunEntry>(alloc: Global, records: &[T]) -> Result<Vec<u32>, AllocError>
    ensures value { IfOk result (λ ids. ids.items ≡ ids_of (map T.entry_of records.now)) }
{
    let mut ids = Vec::with_capacity(alloc, records.len())?;
    for held in records {
        ids.push(held.entry().id)?;
    }
    Ok(ids)
}

/// The losses of the pairs of a record, row by row.
#[derive(Clone, Copy)]
struct PairLosses<'a> {
    /// The number of samples.
    samples: u32,
    /// The pairs.
    pairs: &'a [Pair],
}

impl<'a> Amounts for PairLosses<'a> {
    ghost use Rattle.std.specs.Prelude.{◌+◌, ◌≤◌};
    ghost use Rattle.std.specs.List.{AllByRecursion};
    ghost use Rattle.kt_stream.specs.Pairs.{IsPair};
    ghost use Rattle.kt_runs.specs.RunLosses.{loss_of};
    ghost use Rattle.kt_runs.specs.Sidx.{sidx_at};
    ghost use Rattle.kt_runs.specs.LaneRows.{row_place};

    ghost IsGood = { λ losses. (losses.samples ≤ 1000) × AllByRecursion (IsPair losses.samples) losses.pairs.now };

    ghost width = { λ losses. losses.samples + 1 };

    ghost amount = { λ losses row. loss_of (sidx_at (row_place row)) losses.pairs.now };

    fn add_to(&self, lane: &mut [u64]) {
        add_losses(lane, self.samples, self.pairs);
    }
}

/// Adds the losses of a record to the lane of its id, where they stand, if that is among these. It is looked for in a place first:
/// records stand by rising id mostly.
fn add_record(ids: &[u32], lanes: &mut Lanes, samples: u32, near: usize, entry: &LossRecord)
    requires samples { samples ≤ 1000 }
    requires rising { IsRising ids.now }
    requires same { length lanes.old ≡ length ids.now }
    requires wide { AreWide (samples + 1) lanes.old }
    requires entry { IsLoss samples entry.now }
    requires few { (row place : ℕ) → row < samples + 1 → place < length ids.now → slice_index (column row lanes.old) place + loss_of (sidx_at (row_place row)) entry.now.pairs < 2 ^ 64 }
    ensures value { AreLanes (samples + 1) (length ids.now) (λ row. with_more ids.now (column row lanes.old) entry.now.id (loss_of (sidx_at (row_place row)) entry.now.pairs)) lanes.new }
{
    let pairs = entry.pairs.as_slice();
    add_amounts_by_id(ids, lanes, near, entry.id, &PairLosses { samples, pairs });
}

/// The lanes of rising ids, with the losses of the records that have these ids. An error is want of memory.
pub(crate) fn id_lanes<T: RunEntry>(
    alloc: Global,
    ids: &[u32],
    samples: u32,
    records: &[T],
) -> Result<Lanes, AllocError>
    requires samples { samples ≤ 1000 }
    requires rising { IsRising ids.now }
    requires records { All (IsLoss samples) (map T.entry_of records.now) }
    requires within { AreWithin (map T.entry_of records.now) }
    ensures value { IfOk result (λ lanes. AreIdLanes ids.now samples (map T.entry_of records.now) lanes) }
{
    let width = samples as usize + 1;
    let mut lanes = Lanes::zeros(alloc, ids.len(), width)?;
    for (near, held) in records.iter().enumerate() {
        add_record(ids, &mut lanes, samples, near, held.entry());
    }
    Ok(lanes)
}
