//! Taking over the rows of other cells.
//! The rules: docs/CALCULATION.md, "Periods".
ghost use Rattle.std.specs.Prelude.{◌≡◌, ◌+◌, ◌≤◌, ◌++◌, ℕ, List, IfOk, OnOk, OnErr, length, take, true, false};
ghost use Rattle.std.specs.HashMap.{spare};
ghost use Rattle.kt_cell.specs.Losses.{KeyLoss};
ghost use Rattle.kt_cell.specs.Standing.{Standing, most_cells};
ghost use Rattle.kt_period_cells.specs.Rows.{Apart, AreAbsent, IsIndexOf, entries_of, row_keys};
ghost use Rattle.kt_period_cells.specs.Journal.{Clear};

use super::Rows;
use crate::row::Row;
use crate::row_key::{IndexKey, index_key};
use kt_money::OutOfMemory;
use std::collections::HashMap;

/// Notes in the index where the rows from a place on stand. The index has room for them.
fn index_rows(index: &mut HashMap<IndexKey, usize>, rows: &[Row], first: usize)
    requires within { first ≤ length rows.now }
    requires room { length rows.now ≤ first + spare index.old }
    requires apart { Apart (row_keys rows.now) }
    requires found { IsIndexOf index.old.entries (take first rows.now) }
    ensures found { IsIndexOf index.new.entries rows.now }
{
    for at in first..rows.len() {
        match index.insert(index_key(rows[at].key), at) {
            Ok(_) => {}
            Err(_) => unreachable!(),
        }
    }
}

impl Rows {
    /// Whether none of these rows is here.
    fn has_none_of(&self, rows: &[Row]) -> bool
        ensures none { result ≡ true → AreAbsent (row_keys rows.now) (row_keys self.now.rows) }
    {
        for row in rows {
            if self.find(row.key).is_some() {
                return false;
            }
        }
        true
    }

    /// Whether the rows of others can be taken over: they are for as many periods and samples, none of them is here, and there is room for
    /// their cells.
    fn can_take(&self, other: &Rows) -> bool
        ensures size { result ≡ true → (other.now.periods ≡ self.now.periods) × (other.now.samples ≡ self.now.samples) }
        ensures cells { result ≡ true → length (entries_of self.now.rows) + length (entries_of other.now.rows) ≤ most_cells }
        ensures none { result ≡ true → AreAbsent (row_keys other.now.rows) (row_keys self.now.rows) }
    {
        self.periods == other.periods
            && self.samples == other.samples
            && self.has_cells_room(1, other.held)
            && self.has_none_of(other.rows.as_slice())
    }

    /// Puts the rows of others, none of which is here, behind its own. An error is want of memory, and the rows are then as they were.
    fn append(&mut self, other: Rows) -> Result<(), OutOfMemory>
        requires size { (other.periods ≡ self.old.periods) × (other.samples ≡ self.old.samples) }
        requires cells { length (entries_of self.old.rows) + length (entries_of other.rows) ≤ most_cells }
        requires none { AreAbsent (row_keys other.rows) (row_keys self.old.rows) }
        ensures size { (self.new.periods ≡ self.old.periods) × (self.new.samples ≡ self.old.samples) }
        ensures ok { OnOk result (self.new.rows ≡ self.old.rows ++ other.rows) }
        ensures err { OnErr result (self.new.rows ≡ self.old.rows) }
    {
        let held = other.held;
        let mut others = other.rows;
        let first = self.rows.len();
        self.index.reserve(others.len())?;
        self.rows.append(&mut others)?;
        index_rows(&mut self.index, self.rows.as_slice(), first);
        self.held += held;
        Ok(())
    }

    /// Takes over the rows of others, and answers whether it did: it does where none of them is here, they are for as many periods and
    /// samples, and there is room for their cells. Where it does not the rows are as they were, as after want of memory.
    pub(crate) fn take_over(&mut self, other: Rows) -> Result<bool, OutOfMemory>
        ensures size { (self.new.periods ≡ self.old.periods) × (self.new.samples ≡ self.old.samples) }
        ensures left { IfOk result (λ taken. taken ≡ false → self.new.rows ≡ self.old.rows) }
        ensures err { OnErr result (self.new.rows ≡ self.old.rows) }
        ensures taken { IfOk result (λ taken. taken ≡ true → (before more : List KeyLoss) → Standing before (entries_of self.old.rows) → Standing more (entries_of other.rows) → Clear before more (entries_of self.new.rows)) }
    {
        if !self.can_take(&other) {
            return Ok(false);
        }
        self.append(other)?;
        self.keeps_totals();
        Ok(true)
    }
}
