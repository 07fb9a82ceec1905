//! What layers have of a run: a row for the mean, and one for each sample.
//! The rule: docs/FINANCIAL_MODULE.md, "Insured losses".
ghost use Rattle.std.specs.Prelude.{◌≡◌, ◌≤◌, ◌<◌, ◌+◌, ◌-◌, ◌*◌, ◌++◌, ℕ, List, [], length, map, All, IfOk, OnErr, OnOk, slice_index};
ghost use Rattle.std.specs.List.{AllByRecursion, cons_option, flat_map, range_with_len, sum_by};
ghost use Rattle.kt_stream.specs.Losses.{IsLoss, loss_bytes};
ghost use Rattle.kt_stream.specs.declared.entry.LossRecord.{LossRecord};
ghost use Rattle.kt_runs.specs.RunLosses.{AreWithin};
ghost use Rattle.kt_fmtree.specs.Tree.{Tree};
ghost use Rattle.kt_fmtree.specs.Parts.{IsProgramme};
ghost use Rattle.kt_levels.specs.Climbed.{AreLosses};
ghost use Rattle.kt_lanes.specs.Lanes.{AreWide, column};
ghost use Rattle.kt_levels.specs.Layers.{IsTopLayer, key_of};
ghost use Rattle.kt_levels.specs.ByLanes.{AreLayers};
ghost use Rattle.kt_runs.specs.Records.{record_with};
ghost use Rattle.kt_levels.specs.Table.{HasAmounts, row_at, sampled_sum, table_for};
ghost use Rattle.kt_runs.specs.LaneRows.{pairs_by_row};
ghost use Rattle.kt_runs.specs.Taken.{AreIdLanes};

use crate::by_lanes::{LayerLanes, are_plain, layer_lanes};
use crate::by_rows::lanes_by_rows;
use crate::climbing::climb;
use crate::layers::TopLayer;
use crate::plain::has_plain_units;
use kt_fmtree::Programme;
use kt_lanes::Lanes;
use kt_money::Bytes;
use kt_runs::{Listed, RunEntry, RunLosses, pair_room, put_lane};
use std::alloc::{AllocError, Global};
use std::marker::Model;

/// What layers have of a run: a row for the mean, and one for each sample, at most 1,000. Each row has the shares of all layers one
/// behind the other, their policy losses, and what the shares of each add to. Contracts see the rows; kept is what each share and
/// each policy loss is in all rows, and what the shares of a layer add to is its policy loss.
#[derive(Drop)]
pub struct Table {
    rows: usize,
    shares: Lanes,
    policies: Lanes,
}

impl Model for Table {
    ghost use Rattle.std.specs.Prelude.{List};
    ghost use Rattle.kt_levels.specs.Row.{Shared};
    ghost use Rattle.kt_levels.specs.Kept.{IsTable, rows_in};

    ghost Value = { List Shared };

    ghost view = { rows_in };

    ghost invariant = { IsTable };
}

/// The losses of a lane behind the first, added.
fn sum_of(lane: &[u64]) -> u64
    requires some { 1 ≤ length lane.now }
    requires most { length lane.now ≤ 1001 }
    requires few { (row : ℕ) → row < length lane.now → slice_index lane.now row ≤ 10000000000000000 }
    ensures value { result ≡ sum_by (slice_index lane.now) (range_with_len 1 (length lane.now - 1)) }
{
    let mut sum = 0;
    for row in 1..lane.len() {
        sum += lane[row];
    }
    sum
}

impl Table {
    /// The shares in a place in cents, row by row.
    pub fn shares(&self, place: usize) -> &[u64]
        requires place { All (λ row. place < length row.shares) self.now }
        ensures value { result.now ≡ map (λ row. slice_index row.shares place) self.now }
        ensures most { length self.now ≤ 1001 }
    {
        let _rows = self.rows;
        self.shares.lane(place)
    }

    /// How many rows there are: that of the mean, and those of at most 1,000 samples.
    pub(crate) fn rows(&self) -> usize
        ensures value { result ≡ length self.now }
        ensures some { 1 ≤ length self.now }
        ensures most { length self.now ≤ 1001 }
    {
        self.rows
    }

    /// Room for the pairs of one record of the shares. An error is want of memory.
    pub fn room(&self, alloc: Global) -> Result<Vec<u8>, AllocError>
        ensures room { IfOk result (λ room. length room.items ≡ 12 * length self.now + 12) }
    {
        pair_room(alloc, self.rows)
    }

    /// Appends the record of an event and an id with the shares in a place, where these are above 0, as it stands in a stream. An
    /// error is want of memory, and nothing is appended then.
    pub fn put(
        &self,
        event: u32,
        id: u32,
        place: usize,
        room: &mut [u8],
        out: &mut Bytes,
    ) -> Result<(), AllocError>
        requires place { All (λ row. place < length row.shares) self.now }
        requires room { 12 * length self.now + 12 ≤ length room.old }
        ensures room { length room.new ≡ length room.old }
        ensures ok { OnOk result (out.new ≡ out.old ++ flat_map loss_bytes (cons_option (record_with event id (pairs_by_row (λ row. slice_index (row_at self.now row).shares place) (length self.now))) [])) }
        ensures unchanged { OnErr result (out.new ≡ out.old) }
    {
        put_lane(event, id, self.shares(place), room, out)
    }

    /// The policy losses of a layer in cents, row by row.
    fn policies(&self, place: usize) -> &[u64]
        requires place { All (HasAmounts place) self.now }
        ensures value { result.now ≡ map (λ row. slice_index row.policies place) self.now }
        ensures total { result.now ≡ map (λ row. slice_index row.totals place) self.now }
        ensures some { 1 ≤ length self.now }
        ensures most { length self.now ≤ 1001 }
    {
        let _rows = self.rows;
        self.policies.lane(place)
    }

    /// The policy losses of a layer at the samples in cents, added. Its shares add to the same.
    pub fn sampled(&self, place: usize) -> u64
        requires place { All (HasAmounts place) self.now }
        ensures policy { result ≡ sampled_sum (λ row. slice_index row.policies place) self.now }
        ensures total { result ≡ sampled_sum (λ row. slice_index row.totals place) self.now }
    {
        sum_of(self.policies(place))
    }

    /// The shares in all places in cents, as lanes: each place has what it is row by row.
    pub fn into_shares(self) -> Lanes
        ensures wide { AreWide (length self) result }
        ensures value { (row : ℕ) → row < length self → column row result ≡ (row_at self row).shares }
    {
        self.shares
    }
}

/// What layers have, by lanes: all sidx of a unit side by side where all rules see the losses alone, and else one sidx after the
/// other. An error is want of memory.
fn lanes_of(
    alloc: Global,
    programme: &Programme,
    width: usize,
    lanes: &Lanes,
    rule: u32,
    layers: &[TopLayer],
) -> Result<LayerLanes, AllocError>
    requires rule { rule ≤ 2 }
    requires layers { AllByRecursion (IsTopLayer programme.now) layers.now }
    requires lanes { AreLosses programme.now width lanes.now }
    ensures value { IfOk result (λ made. AreLayers programme.now lanes.now width rule layers.now made) }
{
    if has_plain_units(programme) && are_plain(programme, layers) {
        let climbed = climb(alloc, programme, width, lanes)?;
        return layer_lanes(alloc, programme, lanes, &climbed, rule, layers);
    }
    lanes_by_rows(alloc, programme, width, lanes, rule, layers)
}

/// What layers of a programme have of the losses of a run, whose ids have these lanes.
fn table_by_lanes(
    alloc: Global,
    programme: &Programme,
    samples: u32,
    rule: u32,
    layers: &[TopLayer],
    lanes: &Lanes,
) -> Result<Table, AllocError>
    requires samples { samples ≤ 1000 }
    requires rule { rule ≤ 2 }
    requires layers { AllByRecursion (IsTopLayer programme.now) layers.now }
    requires lanes { AreLosses programme.now (samples + 1) lanes.now }
    ensures value { IfOk result (λ table. (tree : Tree) (records : List LossRecord) → IsProgramme tree programme.now → AreIdLanes programme.now.ids samples records lanes.now → table ≡ table_for tree rule samples records (map key_of layers.now)) }
{
    let rows = samples as usize + 1;
    let made = lanes_of(alloc, programme, rows, lanes, rule, layers)?;
    Ok(Table {
        rows,
        shares: made.shares,
        policies: made.policies,
    })
}

/// What layers of a programme have of the losses of a run, as `table_of` says it of records. An error is want of
/// memory.
pub fn table_of_run<R: RunLosses>(
    alloc: Global,
    programme: &Programme,
    samples: u32,
    rule: u32,
    layers: &[TopLayer],
    run: &R,
) -> Result<Table, AllocError>
    requires samples { samples ≤ 1000 }
    requires rule { rule ≤ 2 }
    requires layers { AllByRecursion (IsTopLayer programme.now) layers.now }
    requires rows { R.has_rows samples run.now }
    requires records { All (IsLoss samples) (R.records_of run.now) }
    requires within { AreWithin (R.records_of run.now) }
    ensures value { IfOk result (λ table. (tree : Tree) → IsProgramme tree programme.now → table ≡ table_for tree rule samples (R.records_of run.now) (map key_of layers.now)) }
{
    programme.is_of_a_tree();
    let ids = programme.ids();
    if let Some(lanes) = run.kept_for(ids, samples) {
        return table_by_lanes(alloc, programme, samples, rule, layers, lanes);
    }
    let lanes = run.lanes_for(alloc, ids, samples)?;
    table_by_lanes(alloc, programme, samples, rule, layers, &lanes)
}

/// What layers of a programme have of the losses of a run, by an allocation rule from 0 to 2: a row for the mean, and one for each
/// sample. An id that the programme does not name takes no part, and neither does sidx -2. An error is want of memory.
pub fn table_of<T: RunEntry>(
    alloc: Global,
    programme: &Programme,
    samples: u32,
    rule: u32,
    layers: &[TopLayer],
    records: &[T],
) -> Result<Table, AllocError>
    requires samples { samples ≤ 1000 }
    requires rule { rule ≤ 2 }
    requires layers { AllByRecursion (IsTopLayer programme.now) layers.now }
    requires records { All (IsLoss samples) (map T.entry_of records.now) }
    requires within { AreWithin (map T.entry_of records.now) }
    ensures value { IfOk result (λ table. (tree : Tree) → IsProgramme tree programme.now → table ≡ table_for tree rule samples (map T.entry_of records.now) (map key_of layers.now)) }
{
    let run = Listed { records };
    table_of_run(alloc, programme, samples, rule, layers, &run)
}
