//! Raising the cells of a row that has room for it.
//! The rules: docs/CALCULATION.md, "Periods"; docs/LIMITS.md, "Cells".
ghost use Rattle.std.specs.Prelude.{◌≡◌, ◌+◌, ◌<◌, ◌≤◌, ◌≤ℤ◌, ℕ, pos, All, Some, true, length};
ghost use Rattle.kt_cell.specs.Standing.{most_total, raised};
ghost use Rattle.kt_period_cells.specs.RowCells.{AreLow, Changes, HasBound, cell_in, cells_of};
ghost use Rattle.kt_period_cells.specs.declared.row.Row.{Row};
ghost use Rattle.kt_period_cells.specs.Room.{IsRoomy, Raises, added_sum};

use super::{Row, placed_cell};
use kt_cell::{Cell, MOST_TOTAL, is_added, new_cells, raised, sample_of};
use kt_stream::Pair;

/// Whether the total of each place is at most this one.
fn are_at_most(places: &[Cell], most: u64) -> bool
    ensures value { result ≡ true → AreLow most places.now }
{
    let mut is_above = false;
    for cell in places {
        // No early end, so that several totals are compared at once.
        if cell.total > most {
            is_above = true;
        }
    }
    !is_above
}

/// Adds a loss to the cell of a sample that has a place and room for it. Returns the cell before.
fn raise(places: &mut [Cell], sample: u32, loss: u64) -> Option<Cell>
    requires place { sample < length places.old }
    requires some { 1 ≤ loss }
    requires room { All (λ one. one.total + loss ≤ most_total) places.old }
    ensures value { (old new : Row) → old.places.items ≡ places.old → new.key ≡ old.key → new.places.items ≡ places.new → Changes old new sample (Some (raised (cell_in (cells_of old) sample) loss)) }
    ensures before { (row : Row) → row.places.items ≡ places.old → result ≡ cell_in (cells_of row) sample }
    ensures len { length places.new ≡ length places.old }
    ensures room { (more : ℕ) → All (λ one. one.total + (loss + more) ≤ most_total) places.old → All (λ one. one.total + more ≤ most_total) places.new }
    ensures totals { (most : ℕ) → AreLow most places.old → AreLow (most + loss) places.new }
{
    let old = placed_cell(places, sample);
    let cell = raised(old, loss);
    places[sample as usize] = cell;
    old
}

impl Row {
    /// Whether each sample has a place, and its total room for so much more.
    pub(crate) fn has_room(&self, more: u64) -> bool
        requires few { more ≤ most_total }
        requires bound { HasBound self.now }
        ensures value { result ≡ true → IsRoomy more self.now }
    {
        let most = MOST_TOTAL - more;
        self.places.len() > 0 && (self.most <= most || are_at_most(self.places.as_slice(), most))
    }

    /// Adds the losses of pairs to the cells of their samples, which have places and room for them: losses of this sum. Returns how
    /// many cells are new.
    pub(crate) fn raise_all(&mut self, pairs: &[Pair], sum: u64, samples: u32) -> usize
        requires sum { sum ≡ added_sum pairs.now }
        requires few { sum ≤ most_total }
        requires places { length self.old.places.items ≡ samples + 1 }
        requires sidx { All (λ pair. pair.sidx ≤ℤ pos samples) pairs.now }
        requires room { All (λ one. one.total + added_sum pairs.now ≤ most_total) self.old.places.items }
        ensures value { Raises samples self.old self.new pairs.now result }
        ensures bound { HasBound self.old → HasBound self.new }
    {
        let places = self.places.as_mut_slice();
        let mut opened = 0;
        for pair in pairs {
            if !is_added(pair) {
                continue;
            }
            opened += new_cells(raise(places, sample_of(&pair.sidx), pair.loss));
        }
        self.most = self.most.min(MOST_TOTAL - sum) + sum;
        opened
    }
}
