//! Runs of losses, as records or by lanes.
//! The rules: docs/STREAMS.md, "Runs"; docs/FINANCIAL_MODULE.md, "Insured losses".
ghost use Rattle.std.specs.Prelude.{◌≡◌, ◌+◌, ◌<◌, ◌≤◌, ℕ, List, All, length, map, slice_index_or, IfOk, IfSome};
ghost use Rattle.kt_stream.specs.Losses.{IsLoss};
ghost use Rattle.kt_stream.specs.declared.entry.LossRecord.{LossRecord};
ghost use Rattle.kt_rec.specs.Rising.{IsRising};
ghost use Rattle.kt_runs.specs.RunLosses.{AreWithin, event_of, loss_of};
ghost use Rattle.kt_runs.specs.Sidx.{sidx_at};
ghost use Rattle.kt_lanes.specs.Lanes.{IsLane};
ghost use Rattle.kt_runs.specs.Records.{ids_of};
ghost use Rattle.kt_runs.specs.LaneRows.{row_place};
ghost use Rattle.kt_runs.specs.Taken.{AreIdLanes};

use crate::losses::{id_lanes, ids_of, take_losses};
use crate::run_entry::RunEntry;
use kt_lanes::Lanes;
use std::alloc::{AllocError, Global};

/// A run of losses.
pub trait RunLosses {
    /// Its records.
    ghost records_of: { Self → List LossRecord };

    /// Whether its losses are there for the mean and for so many samples.
    ghost has_rows: { ℕ → Self → Type 0 };

    /// How many records there are.
    fn count(&self) -> usize
        ensures value { result ≡ length (records_of self.now) };

    /// The event of the record in a place.
    fn event_at(&self, place: usize) -> u32
        requires place { place < length (records_of self.now) }
        ensures value { (d : LossRecord) → result ≡ (slice_index_or (records_of self.now) place d).event };

    /// The id of the record in a place.
    fn id_at(&self, place: usize) -> u32
        requires place { place < length (records_of self.now) }
        ensures value { (d : LossRecord) → result ≡ (slice_index_or (records_of self.now) place d).id };

    /// The ids of the records, in their order. An error is want of memory.
    fn id_list(&self, alloc: Global) -> Result<Vec<u32>, AllocError>
        ensures value { IfOk result (λ ids. ids.items ≡ ids_of (records_of self.now)) };

    /// Puts the losses of the record in a place in cents, row by row, in the place of what a lane has.
    fn take_at(&self, place: usize, samples: u32, lane: &mut [u64])
        requires samples { samples ≤ 1000 }
        requires place { place < length (records_of self.now) }
        requires rows { has_rows samples self.now }
        requires records { All (IsLoss samples) (records_of self.now) }
        requires within { AreWithin (records_of self.now) }
        requires lane { length lane.old ≡ samples + 1 }
        ensures value { (d : LossRecord) → IsLane (samples + 1) (λ row. loss_of (sidx_at (row_place row)) (slice_index_or (records_of self.now) place d).pairs) lane.new };

    /// The lanes of rising ids, with the losses of the records that have these ids, where the run keeps them so.
    fn kept_for(&self, ids: &[u32], samples: u32) -> Option<&Lanes>
        requires samples { samples ≤ 1000 }
        requires rising { IsRising ids.now }
        requires rows { has_rows samples self.now }
        requires records { All (IsLoss samples) (records_of self.now) }
        requires within { AreWithin (records_of self.now) }
        ensures value { IfSome result (λ lanes. AreIdLanes ids.now samples (records_of self.now) lanes.now) };

    /// The lanes of rising ids, with the losses of the records that have these ids. An error is want of memory.
    fn lanes_for(&self, alloc: Global, ids: &[u32], samples: u32) -> Result<Lanes, AllocError>
        requires samples { samples ≤ 1000 }
        requires rising { IsRising ids.now }
        requires rows { has_rows samples self.now }
        requires records { All (IsLoss samples) (records_of self.now) }
        requires within { AreWithin (records_of self.now) }
        ensures value { IfOk result (λ lanes. AreIdLanes ids.now samples (records_of self.now) lanes) };
}

/// The event of a run, which is that of its first record, or 0 where there is none.
pub fn event_of_run<R: RunLosses>(run: &R) -> u32
    ensures value { result ≡ event_of (R.records_of run.now) }
{
    let count = run.count();
    if count == 0 {
        return 0;
    }
    run.event_at(0)
}

/// A run of records in a slice.
#[derive(Drop)]
pub struct Listed<'a, T> {
    /// The records, or what holds them.
    pub records: &'a [T],
}

impl<'a, T: RunEntry> RunLosses for Listed<'a, T> {
    ghost records_of = { λ run. map T.entry_of run.records.now };

    ghost has_rows = { λ samples run. Unit {0} };

    fn count(&self) -> usize {
        self.records.len()
    }

    fn event_at(&self, place: usize) -> u32 {
        self.records[place].entry().event
    }

    fn id_at(&self, place: usize) -> u32 {
        self.records[place].entry().id
    }

    fn id_list(&self, alloc: Global) -> Result<Vec<u32>, AllocError> {
        ids_of(alloc, self.records)
    }

    fn take_at(&self, place: usize, samples: u32, lane: &mut [u64]) {
        let entry = self.records[place].entry();
        take_losses(lane, samples, entry.pairs.as_slice());
    }

    fn kept_for(&self, ids: &[u32], samples: u32) -> Option<&Lanes> {
        None
    }

    fn lanes_for(&self, alloc: Global, ids: &[u32], samples: u32) -> Result<Lanes, AllocError> {
        id_lanes(alloc, ids, samples, self.records)
    }
}
