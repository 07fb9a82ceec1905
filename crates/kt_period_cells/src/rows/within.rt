//! Adding a record of which no loss passes a limit: nothing is noted, since nothing has to be taken back.
//! The rules: docs/CALCULATION.md, "Periods"; docs/LIMITS.md, "Cells".
ghost use Rattle.std.specs.Prelude.{◌≡◌, ◌+◌, ◌*◌, ◌≤◌, ◌^◌, ℕ, pos, ◌≤ℤ◌, List, ◌∷◌, [], ◌++◌, All, IfSome, true, length};
ghost use Rattle.std.specs.List.{flat_map};
ghost use Rattle.kt_rec.specs.declared.perspective.CellKey.{CellKey};
ghost use Rattle.kt_rec.specs.declared.perspective.Perspective.{Perspective};
ghost use Rattle.kt_period_cells.specs.declared.rows.Spot.{Spot};
ghost use Rattle.kt_cell.specs.Losses.{KeyLoss, is_added};
ghost use Rattle.kt_cell.specs.Standing.{Standing, cell_at, most_cells, most_total, total_in};
ghost use Rattle.kt_period_cells.specs.Rows.{entries_of, row_keys, IsSpot, spot_losses};
ghost use Rattle.kt_period_cells.specs.Room.{IsRoomyAt, AreRoomy, added_sum};
ghost use Rattle.kt_period_cells.specs.SummaryRows.{row_at};
ghost use Rattle.kt_period_cells.specs.Journal.{Clear};

use super::{Rows, Spot};
use kt_cell::{MOST_CELLS, MOST_TOTAL, is_added};
use kt_stream::Pair;

/// So many pairs have a sum of losses that fits its type. A record has fewer: one for each sample, and three others.
const MOST_PAIRS: usize = 1800;

/// The sum of the losses that are added up.
fn added_sum(pairs: &[Pair]) -> u64
    requires losses { All (λ pair. pair.loss ≤ 10 ^ 16) pairs.now }
    requires few { length pairs.now ≤ 1800 }
    ensures value { result ≡ added_sum pairs.now }
{
    let mut total = 0;
    for pair in pairs {
        total += added_loss(pair);
    }
    total
}

/// The loss of a pair, where it is added up.
fn added_loss(pair: &Pair) -> u64
    ensures value { result ≡ added_sum (pair.now ∷ []) }
{
    if is_added(pair) { pair.loss } else { 0 }
}

/// The sum of the losses that are added up, where it is at most the greatest total.
fn small_sum(pairs: &[Pair]) -> Option<u64>
    requires { All (λ pair. pair.loss ≤ 10 ^ 16) pairs.now }
    ensures { IfSome result (λ sum. (sum ≡ added_sum pairs.now) × (sum ≤ most_total)) }
{
    if pairs.len() > MOST_PAIRS {
        return None;
    }
    let sum = added_sum(pairs);
    if sum > MOST_TOTAL { None } else { Some(sum) }
}

impl Rows {
    /// Whether there is room for so many cells more in each of so many rows.
    pub(super) fn has_cells_room(&self, count: usize, pairs: usize) -> bool
        ensures value { result ≡ true → length (entries_of self.now.rows) + count * pairs ≤ most_cells }
    {
        self.held as u128 + count as u128 * pairs as u128 <= MOST_CELLS as u128
    }

    /// Whether a row has a place for each sample, and room for so much more in each of its cells.
    fn has_row_room(&self, row: usize, more: u64) -> bool
        requires { more ≤ most_total }
        ensures value { result ≡ true → IsRoomyAt more (row_at self.now.rows row) }
    {
        row < self.rows.len() && self.rows[row].has_room(more)
    }

    /// Whether the rows at spots have a place for each sample, and room for so much more in each of their cells.
    fn have_room(&self, spots: &[Spot], more: u64) -> bool
        requires { more ≤ most_total }
        ensures value { result ≡ true → AreRoomy more spots.now self.now.rows }
    {
        for spot in spots {
            if !self.has_row_room(spot.row, more) {
                return false;
            }
        }
        true
    }

    /// Whether the rows at spots have a place for each sample, and room for a sum in each of their cells as often as there are spots.
    fn have_sum_room(&self, spots: &[Spot], sum: u64) -> bool
        requires { sum ≤ most_total }
        ensures value { result ≡ true → AreRoomy (length spots.now * sum) spots.now self.now.rows }
    {
        let more = spots.len() as u128 * u128::from(sum);
        more <= u128::from(MOST_TOTAL) && self.have_room(spots, more as u64)
    }

    /// The sum of the losses of the pairs, where none of them can pass a limit in the rows at spots, and these have a place for each
    /// sample.
    pub(crate) fn sum_with_room(&self, pairs: &[Pair], spots: &[Spot]) -> Option<u64>
        requires { All (λ pair. pair.loss ≤ 10 ^ 16) pairs.now }
        ensures sum { IfSome result (λ sum. (sum ≡ added_sum pairs.now) × (sum ≤ most_total)) }
        ensures cells { IfSome result (λ _. length (entries_of self.now.rows) + length spots.now * length pairs.now ≤ most_cells) }
        ensures totals { IfSome result (λ sum. AreRoomy (length spots.now * sum) spots.now self.now.rows) }
    {
        match small_sum(pairs) {
            Some(sum)
                if self.has_cells_room(spots.len(), pairs.len())
                    && self.have_sum_room(spots, sum) => Some(sum),
            _ => None,
        }
    }

    /// Adds the losses of the pairs, of this sum, to the row at a spot, which has room for them.
    fn add_spot(&mut self, pairs: &[Pair], sum: u64, spot: &Spot)
        requires sum { sum ≡ added_sum pairs.now }
        requires low { sum ≤ most_total }
        requires sidx { All (λ pair. pair.sidx ≤ℤ pos self.old.samples) pairs.now }
        requires few { length (entries_of self.old.rows) + length pairs.now ≤ most_cells }
        requires room { IsRoomyAt (added_sum pairs.now) (row_at self.old.rows spot.now.row) }
        ensures size { (self.new.periods ≡ self.old.periods) × (self.new.samples ≡ self.old.samples) }
        ensures rows { row_keys self.new.rows ≡ row_keys self.old.rows }
        ensures count { length (entries_of self.new.rows) ≤ length (entries_of self.old.rows) + length pairs.now }
        ensures room { (more : ℕ) (spots : List Spot) → AreRoomy (added_sum pairs.now + more) spots self.old.rows → AreRoomy more spots self.new.rows }
        ensures step { (perspective : Perspective) (set summary : ℕ) (before : List KeyLoss) → IsSpot perspective set summary (row_keys self.old.rows) spot.now → Standing before (entries_of self.old.rows) → Standing (before ++ flat_map (spot_losses perspective set summary (spot.now ∷ [])) pairs.now) (entries_of self.new.rows) }
    {
        let opened = self.rows[spot.row].raise_all(pairs, sum, self.samples);
        self.held += opened;
    }

    /// The total of each cell is within its limit.
    pub(super) fn keeps_totals(&self)
        ensures { (key : CellKey) → total_in (cell_at (entries_of self.now.rows) key) ≤ most_total }
    {
        let _held = self.held;
    }

    /// Adds the losses of the pairs, of this sum, to the rows at spots, which have room for them.
    pub(crate) fn add_within(&mut self, pairs: &[Pair], sum: u64, spots: &[Spot])
        requires sum { sum ≡ added_sum pairs.now }
        requires low { sum ≤ most_total }
        requires sidx { All (λ pair. pair.sidx ≤ℤ pos self.old.samples) pairs.now }
        requires few { length (entries_of self.old.rows) + length spots.now * length pairs.now ≤ most_cells }
        requires room { AreRoomy (length spots.now * added_sum pairs.now) spots.now self.old.rows }
        ensures size { (self.new.periods ≡ self.old.periods) × (self.new.samples ≡ self.old.samples) }
        ensures step { (perspective : Perspective) (set summary : ℕ) (before : List KeyLoss) → All (IsSpot perspective set summary (row_keys self.old.rows)) spots.now → Standing before (entries_of self.old.rows) → Clear before (flat_map (spot_losses perspective set summary spots.now) pairs.now) (entries_of self.new.rows) }
    {
        for spot in spots {
            self.add_spot(pairs, sum, spot);
        }
        self.keeps_totals();
    }
}
