//! Records of losses by lanes.
//! The rule: docs/FINANCIAL_MODULE.md, "Insured losses".
ghost use Rattle.std.specs.Prelude.{◌≡◌, ◌+◌, ◌≤◌, ◌<◌, ◌++◌, ◌∷◌, true, false, [], All, length, slice_index, slice_index_or, IfOk, OnErr, OnOk};
ghost use Rattle.std.specs.List.{cons_option};
ghost use Rattle.std.specs.List.Sorted.{IsNonDecreasingBy, IsPermutation};
ghost use Rattle.kt_rec.specs.Rising.{IsRising};
ghost use Rattle.kt_runs.specs.RunLosses.{AreWithin, event_of};
ghost use Rattle.kt_stream.specs.declared.entry.LossRecord.{LossRecord};
ghost use Rattle.kt_lanes.specs.Lanes.{AreWide};
ghost use Rattle.kt_runs.specs.Less.{IsPlaceIn, records_less};
ghost use Rattle.kt_runs.specs.LossLanes.{HaveLanes, deviation_of, lane_records};
ghost use Rattle.kt_runs.specs.Records.{ids_of, record_with};
ghost use Rattle.kt_runs.specs.LaneRows.{pairs_by_row, pairs_with};
ghost use Rattle.kt_runs.specs.Taken.{AreIdLanes};

use crate::heads::{
    LossHead, are_apart, are_ids, are_in_turn, put_in_turn, sort_by_id, turned_lanes,
};
use crate::less::lessened;
use crate::pairs::record_pairs;
use crate::run_losses::{RunLosses, event_of_run};
use kt_lanes::{Lanes, add_by_id};
use kt_stream::{LossRecord, Records};
use std::alloc::{AllocError, Global};
use std::marker::Model;

/// Records of losses in cents, by lanes: of each record its deviation, and the place of a lane, with the loss of the mean first and then
/// those of the samples, at most 1,000. Contracts see the number of losses in a lane, and the records.
#[derive(Drop)]
pub struct LossLanes {
    rows: usize,
    heads: Vec<LossHead>,
    lanes: Lanes,
}

impl Model for LossLanes {
    ghost use Rattle.kt_runs.specs.LaneRun.{LaneRun};

    ghost Value = { LaneRun };

    ghost use Rattle.kt_runs.specs.LossLanes.{AreLossLanes, run_of};

    ghost view = { run_of };

    ghost invariant = { AreLossLanes };
}

/// Whether one of the losses of a lane is above 0.
pub fn has_loss(lane: &[u64]) -> bool
    ensures some { result ≡ true → 0 < length (pairs_by_row (slice_index lane.now) (length lane.now)) }
    ensures none { result ≡ false → pairs_by_row (slice_index lane.now) (length lane.now) ≡ [] }
{
    for row in 0..lane.len() {
        if lane[row] > 0 {
            return true;
        }
    }
    false
}

/// Whether a deviation or one of the losses of a lane is above 0.
fn has_losses(deviation: u64, lane: &[u64]) -> bool
    ensures some { result ≡ true → 0 < length (pairs_with deviation lane.now) }
    ensures none { result ≡ false → pairs_with deviation lane.now ≡ [] }
{
    if deviation > 0 {
        return true;
    }
    has_loss(lane)
}

impl LossLanes {
    /// No record, with room for so many, of each so many losses. An error is want of memory.
    pub fn with_room(alloc: Global, count: usize, rows: usize) -> Result<LossLanes, AllocError>
        requires rows { rows ≤ 1001 }
        ensures rows { IfOk result (λ made. made.rows ≡ rows) }
        ensures none { IfOk result (λ made. made.records ≡ []) }
    {
        let heads = Vec::with_capacity(alloc, count)?;
        let lanes = Lanes::with_room(alloc, count, rows)?;
        Ok(LossLanes { rows, heads, lanes })
    }

    /// The records of heads, whose lanes are among these.
    pub fn of(rows: usize, heads: Vec<LossHead>, lanes: Lanes) -> LossLanes
        requires few { rows ≤ 1001 }
        requires have { HaveLanes lanes heads.items }
        requires wide { AreWide rows lanes }
        ensures rows { result.rows ≡ rows }
        ensures records { result.records ≡ lane_records heads.items lanes }
    {
        LossLanes { rows, heads, lanes }
    }

    /// Puts the losses of an id in an event behind the others, where one is above 0. An error is want of memory, and nothing changes
    /// then.
    pub fn put(&mut self, event: u32, id: u32, lane: &[u64]) -> Result<(), AllocError>
        requires rows { length lane.now ≡ self.old.rows }
        ensures rows { self.new.rows ≡ self.old.rows }
        ensures ok { OnOk result (self.new.records ≡ self.old.records ++ cons_option (record_with event id (pairs_by_row (slice_index lane.now) (length lane.now))) []) }
        ensures unchanged { OnErr result (self.new.records ≡ self.old.records) }
    {
        self.put_with(event, id, 0, lane)
    }

    /// Puts the deviation and the losses of an id in an event behind the others, where one is above 0. An error is want of memory, and
    /// nothing changes then.
    pub fn put_with(
        &mut self,
        event: u32,
        id: u32,
        deviation: u64,
        lane: &[u64],
    ) -> Result<(), AllocError>
        requires rows { length lane.now ≡ self.old.rows }
        ensures rows { self.new.rows ≡ self.old.rows }
        ensures ok { OnOk result (self.new.records ≡ self.old.records ++ cons_option (record_with event id (pairs_with deviation lane.now)) []) }
        ensures unchanged { OnErr result (self.new.records ≡ self.old.records) }
    {
        if !has_losses(deviation, lane) {
            return Ok(());
        }
        self.keep(event, id, deviation, lane)
    }

    /// Puts the record of a lane behind the others. An error is want of memory; the records are then as they were, though the lane may be
    /// kept.
    fn keep(&mut self, event: u32, id: u32, deviation: u64, lane: &[u64]) -> Result<(), AllocError>
        requires rows { length lane.now ≡ self.old.rows }
        ensures rows { self.new.rows ≡ self.old.rows }
        ensures ok { OnOk result (self.new.records ≡ self.old.records ++ (record { event = event; id = id; pairs = pairs_with deviation lane.now }) ∷ []) }
        ensures unchanged { OnErr result (self.new.records ≡ self.old.records) }
    {
        let place = self.lanes.len();
        self.lanes.push(lane)?;
        self.heads.push(LossHead {
            event,
            id,
            deviation,
            place,
        })?;
        Ok(())
    }

    /// How many records there are.
    pub fn len(&self) -> usize
        ensures value { result ≡ length self.now.records }
    {
        self.heads.len()
    }

    /// The event of the record in a place.
    pub fn event(&self, place: usize) -> u32
        requires place { place < length self.now.records }
        ensures value { (d : LossRecord) → result ≡ (slice_index_or self.now.records place d).event }
    {
        let _lanes = self.lanes.len();
        self.heads[place].event
    }

    /// The id of the record in a place.
    pub fn id(&self, place: usize) -> u32
        requires place { place < length self.now.records }
        ensures value { (d : LossRecord) → result ≡ (slice_index_or self.now.records place d).id }
    {
        let _lanes = self.lanes.len();
        self.heads[place].id
    }

    /// The deviation of the record in a place in cents.
    pub fn deviation(&self, place: usize) -> u64
        requires place { place < length self.now.records }
        ensures value { (d : LossRecord) → result ≡ deviation_of (slice_index_or self.now.records place d) }
    {
        let _lanes = self.lanes.len();
        self.heads[place].deviation
    }

    /// The losses of the record in a place in cents: that of the mean, and behind it those of the samples.
    pub fn lane(&self, place: usize) -> &[u64]
        requires place { place < length self.now.records }
        ensures rows { length result.now ≡ self.now.rows }
        ensures few { self.now.rows ≤ 1001 }
        ensures pairs { (d : LossRecord) → (slice_index_or self.now.records place d).pairs ≡ pairs_with (deviation_of (slice_index_or self.now.records place d)) result.now }
    {
        self.lanes.lane(self.heads[place].place)
    }

    /// The event of the records, which is that of the first, or 0 where there is none.
    pub fn first_event(&self) -> u32
        ensures value { result ≡ event_of self.now.records }
    {
        event_of_run(self)
    }

    /// The ids of the records, in their order. An error is want of memory.
    pub fn ids(&self, alloc: Global) -> Result<Vec<u32>, AllocError>
        ensures value { IfOk result (λ ids. ids.items ≡ ids_of self.now.records) }
    {
        let mut ids = Vec::with_capacity(alloc, self.len())?;
        for place in 0..self.len() {
            ids.push(self.id(place))?;
        }
        Ok(ids)
    }

    /// The record in a place. An error is want of memory.
    fn record_at(&self, alloc: Global, place: usize) -> Result<LossRecord, AllocError>
        requires place { place < length self.now.records }
        ensures value { IfOk result (λ entry. (d : LossRecord) → entry ≡ slice_index_or self.now.records place d) }
    {
        let pairs = record_pairs(alloc, self.deviation(place), self.lane(place))?;
        Ok(LossRecord {
            event: self.event(place),
            id: self.id(place),
            pairs,
        })
    }

    /// The records, in their order. An error is want of memory.
    pub fn to_records(&self, alloc: Global) -> Result<Records<LossRecord>, AllocError>
        ensures value { IfOk result (λ made. made ≡ self.now.records) }
    {
        let mut made = Vec::with_capacity(alloc, self.len())?;
        for place in 0..self.len() {
            made.push(self.record_at(alloc, place)?)?;
        }
        Ok(Records::from_vec(made))
    }

    /// The records by rising id: no lane is moved. An error is want of memory.
    pub fn by_id(self) -> Result<LossLanes, AllocError>
        ensures rows { IfOk result (λ made. made.rows ≡ self.rows) }
        ensures permutation { IfOk result (λ made. IsPermutation self.records made.records) }
        ensures rising { IfOk result (λ made. IsNonDecreasingBy (λ entry. entry.id) made.records) }
    {
        let rows = self.rows;
        let lanes = self.lanes;
        let mut heads = self.heads;
        sort_by_id(&mut heads)?;
        Ok(LossLanes { rows, heads, lanes })
    }

    /// The same records, with a lane for each of them, in their order, and no other. Lanes that do not stand so are put so where they stand;
    /// they are copied only where records share one. An error is want of memory.
    pub fn in_turn(self, alloc: Global) -> Result<LossLanes, AllocError>
        ensures rows { IfOk result (λ made. made.rows ≡ self.rows) }
        ensures records { IfOk result (λ made. made.records ≡ self.records) }
    {
        if are_in_turn(&self.heads, self.lanes.len()) {
            return Ok(self);
        }
        let rows = self.rows;
        let lanes = self.lanes;
        let mut heads = self.heads;
        let turned = turned_lanes(alloc, &heads, lanes)?;
        put_in_turn(&mut heads);
        Ok(LossLanes::of(rows, heads, turned))
    }

    /// What is left of the records where amounts in cents are taken from them, row by row, where the place of such amounts is named: a
    /// loss of which more is taken becomes 0. A record without a loss is left out, and so is each deviation. Lanes are copied only where
    /// records share one. An error is want of memory.
    pub fn less(
        self,
        alloc: Global,
        taken: &Lanes,
        places: &[Option<usize>],
    ) -> Result<LossLanes, AllocError>
        requires places { length places.now ≡ length self.records }
        requires within { All (IsPlaceIn taken.now) places.now }
        requires wide { AreWide self.rows taken.now }
        ensures rows { IfOk result (λ made. made.rows ≡ self.rows) }
        ensures records { IfOk result (λ made. made.records ≡ records_less self.rows taken.now self.records places.now) }
    {
        let rows = self.rows;
        let lanes = self.lanes;
        let mut heads = self.heads;
        if are_apart(&heads) {
            return lessened(alloc, rows, &heads, lanes, taken, places);
        }
        let turned = turned_lanes(alloc, &heads, lanes)?;
        put_in_turn(&mut heads);
        lessened(alloc, rows, &heads, turned, taken, places)
    }
}

/// The lanes of rising ids, with the losses of the records that have these ids. An error is want of memory.
fn lanes_of_ids(
    alloc: Global,
    ids: &[u32],
    samples: u32,
    losses: &LossLanes,
) -> Result<Lanes, AllocError>
    requires samples { samples ≤ 1000 }
    requires rising { IsRising ids.now }
    requires rows { losses.now.rows ≡ samples + 1 }
    requires within { AreWithin losses.now.records }
    ensures value { IfOk result (λ lanes. AreIdLanes ids.now samples losses.now.records lanes) }
{
    let mut lanes = Lanes::zeros(alloc, ids.len(), samples as usize + 1)?;
    for near in 0..losses.len() {
        add_by_id(ids, &mut lanes, near, losses.id(near), losses.lane(near));
    }
    Ok(lanes)
}

impl RunLosses for LossLanes {
    ghost records_of = { λ run. run.records };

    ghost has_rows = { λ samples run. run.rows ≡ samples + 1 };

    fn count(&self) -> usize {
        self.len()
    }

    fn event_at(&self, place: usize) -> u32 {
        self.event(place)
    }

    fn id_at(&self, place: usize) -> u32 {
        self.id(place)
    }

    fn id_list(&self, alloc: Global) -> Result<Vec<u32>, AllocError> {
        self.ids(alloc)
    }

    fn take_at(&self, place: usize, samples: u32, lane: &mut [u64]) {
        lane.copy_from_slice(self.lane(place));
    }

    fn kept_for(&self, ids: &[u32], samples: u32) -> Option<&Lanes> {
        if are_ids(&self.heads, ids) && are_in_turn(&self.heads, self.lanes.len()) {
            return Some(&self.lanes);
        }
        None
    }

    fn lanes_for(&self, alloc: Global, ids: &[u32], samples: u32) -> Result<Lanes, AllocError> {
        lanes_of_ids(alloc, ids, samples, self)
    }
}
