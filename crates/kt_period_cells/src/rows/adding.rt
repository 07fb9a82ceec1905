//! Adding losses to the cells of rows, and taking them back.
//! The rules: docs/CALCULATION.md, "Periods".
ghost use Rattle.std.specs.Prelude.{◌≡◌, ◌≤◌, ◌^◌, pos, ◌≤ℤ◌, List, [], ◌∷◌, ◌++◌, map, All, Some, true};
ghost use Rattle.std.specs.List.{flat_map};
ghost use Rattle.kt_cell.specs.Losses.{KeyLoss, maximum, is_added, key_of};
ghost use Rattle.kt_cell.specs.Standing.{Standing, sidx_in_range, most_total};
ghost use Rattle.kt_period_cells.specs.Rows.{entries_of, row_keys, row_of, place_of, IsSpot, spot_loss, spot_losses};
ghost use Rattle.kt_period_cells.specs.Journal.{Puts, Noted, Going, GoesOn, Returns};

use super::{Rows, Spot};
use crate::row_key::RowKey;
use kt_cell::{CellStop, Change, is_added, maximum_in, new_cells, raised, refusal, sample_of};
use kt_rec::{CellKey, Perspective};
use kt_stream::Pair;

/// The key to which a pair's loss falls in a period.
fn key_of(perspective: Perspective, set: u32, summary: u32, pair: &Pair, period: u32) -> CellKey
    ensures value { result ≡ key_of perspective set summary pair.now.sidx period }
{
    CellKey {
        perspective,
        set,
        summary,
        sidx: pair.sidx,
        period,
    }
}

impl Rows {
    /// Adds one loss, above 0, to the cell of its key, whose row stands at `row`, and notes it in the journal.
    fn put(
        &mut self,
        row: usize,
        key: CellKey,
        loss: u64,
        journal: &mut Vec<Change>,
    ) -> Result<(), CellStop>
        requires row { place_of (row_of key) (row_keys self.old.rows) ≡ Some row }
        requires sidx { sidx_in_range self.old.samples key.sidx ≡ true }
        requires some { 1 ≤ loss }
        requires loss { loss ≤ 10 ^ 16 }
        requires journal { All (λ change. change.greatest ≤ most_total) journal.old.items }
        ensures size { (self.new.periods ≡ self.old.periods) × (self.new.samples ≡ self.old.samples) }
        ensures rows { row_keys self.new.rows ≡ row_keys self.old.rows }
        ensures journal { All (λ change. change.greatest ≤ most_total) journal.new.items }
        ensures step { (losses : List KeyLoss) → Standing losses (entries_of self.old.rows) → Puts losses (record { key = key; loss = loss }) result (entries_of self.new.rows) }
        ensures noted { (losses : List KeyLoss) → Standing losses (entries_of self.old.rows) → Noted losses (record { key = key; loss = loss }) result journal.old.items journal.new.items }
    {
        let sample = sample_of(&key.sidx);
        let old = self.rows[row].cell(sample);
        match refusal(self.held, old, key, loss) {
            Some(stop) => return Err(stop),
            None => {}
        }
        let before = journal.len();
        let change = Change {
            key,
            loss,
            greatest: maximum_in(old),
        };
        match journal.push(change) {
            Ok(()) => {}
            Err(_) => return Err(CellStop::OutOfMemory),
        }
        match self.rows[row].set(sample, raised(old, loss)) {
            Ok(()) => {
                self.held += new_cells(old);
                return Ok(());
            }
            Err(_) => {}
        }
        journal.truncate(before);
        Err(CellStop::OutOfMemory)
    }

    /// Takes back what a change notes.
    fn take_back(&mut self, change: Change)
        requires { change.greatest ≤ most_total }
        ensures size { (self.new.periods ≡ self.old.periods) × (self.new.samples ≡ self.old.samples) }
        ensures taken { (losses : List KeyLoss) → change.greatest ≡ maximum losses change.key → 1 ≤ change.loss → Standing (losses ++ (record { key = change.key; loss = change.loss }) ∷ []) (entries_of self.old.rows) → Standing losses (entries_of self.new.rows) }
    {
        let key = RowKey {
            perspective: change.key.perspective,
            set: change.key.set,
            summary: change.key.summary,
            period: change.key.period,
        };
        if let Some(row) = self.find(key) {
            let sample = sample_of(&change.key.sidx);
            let gone = self.rows[row].lower(sample, change.loss, change.greatest);
            self.held -= gone;
        }
    }

    /// Takes back what the changes note, the last first.
    pub(crate) fn take_all_back(&mut self, mut journal: Vec<Change>)
        requires { All (λ change. change.greatest ≤ most_total) journal.items }
        ensures size { (self.new.periods ≡ self.old.periods) × (self.new.samples ≡ self.old.samples) }
        ensures returned { (before : List KeyLoss) → Returns before journal.items (entries_of self.old.rows) → Standing before (entries_of self.new.rows) }
    {
        while let Some(change) = journal.pop() {
            self.take_back(change);
        }
    }

    /// Adds the losses of a pair, occurrence by occurrence.
    fn add_pair(
        &mut self,
        perspective: Perspective,
        set: u32,
        summary: u32,
        pair: &Pair,
        spots: &[Spot],
        journal: &mut Vec<Change>,
    ) -> Result<(), CellStop>
        requires spots { All (IsSpot perspective set summary (row_keys self.old.rows)) spots.now }
        requires added { is_added pair.now ≡ true }
        requires sidx { sidx_in_range self.old.samples pair.now.sidx ≡ true }
        requires loss { pair.now.loss ≤ 10 ^ 16 }
        requires journal { All (λ change. change.greatest ≤ most_total) journal.old.items }
        ensures size { (self.new.periods ≡ self.old.periods) × (self.new.samples ≡ self.old.samples) }
        ensures rows { row_keys self.new.rows ≡ row_keys self.old.rows }
        ensures journal { All (λ change. change.greatest ≤ most_total) journal.new.items }
        ensures step { (before done : List KeyLoss) → Going before done journal.old.items (entries_of self.old.rows) → GoesOn before done (map (spot_loss perspective set summary pair.now) spots.now) result journal.new.items (entries_of self.new.rows) }
    {
        for spot in spots {
            let key = key_of(perspective, set, summary, pair, spot.period);
            match self.put(spot.row, key, pair.loss, journal) {
                Ok(()) => {}
                Err(stop) => return Err(stop),
            }
        }
        Ok(())
    }

    /// Adds the losses of the pairs, pair by pair, to the rows of their summary.
    pub(crate) fn add_pairs(
        &mut self,
        perspective: Perspective,
        set: u32,
        summary: u32,
        pairs: &[Pair],
        spots: &[Spot],
        journal: &mut Vec<Change>,
    ) -> Result<(), CellStop>
        requires spots { All (IsSpot perspective set summary (row_keys self.old.rows)) spots.now }
        requires sidx { All (λ pair. pair.sidx ≤ℤ pos self.old.samples) pairs.now }
        requires losses { All (λ pair. pair.loss ≤ 10 ^ 16) pairs.now }
        requires journal { journal.old.items ≡ [] }
        ensures size { (self.new.periods ≡ self.old.periods) × (self.new.samples ≡ self.old.samples) }
        ensures journal { All (λ change. change.greatest ≤ most_total) journal.new.items }
        ensures step { (before : List KeyLoss) → Standing before (entries_of self.old.rows) → GoesOn before [] (flat_map (spot_losses perspective set summary spots.now) pairs.now) result journal.new.items (entries_of self.new.rows) }
    {
        for pair in pairs {
            if !is_added(pair) {
                continue;
            }
            match self.add_pair(perspective, set, summary, pair, spots, journal) {
                Ok(()) => {}
                Err(stop) => return Err(stop),
            }
        }
        Ok(())
    }
}
