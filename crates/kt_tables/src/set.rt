//! The summaries of the ids of a perspective in one set.
//! The rule: docs/TABLES.md, "Lookups".
ghost use Rattle.std.specs.Prelude.{◌≡◌, true, ℕ, nat_eq, Option, Some, IfOk};
ghost use Rattle.std.specs.List.{list_any};
ghost use Rattle.kt_rec.specs.Rising.{IsRising};
ghost use Rattle.kt_tables.specs.SetRows.{AreFound, summary_at};

use crate::summaries::{UnitSummary, first_summary};
use kt_index::{keep_once, pair_key, rows_near};
use std::alloc::{AllocError, Global};
use std::marker::Model;

/// The place in which the row of an id stands where the ids of rows rise by one, as they mostly do.
#[inline]
fn likely_place(rows: &[UnitSummary], id: u32) -> usize {
    match rows.first() {
        Some(row) => id.wrapping_sub(row.unit) as usize,
        None => 0,
    }
}

/// The summaries of the ids of a perspective in one set. Contracts see the summary of an id, where it has one.
#[derive(Drop)]
pub struct SetSummaries<'a> {
    pub(crate) rows: &'a [UnitSummary],
    pub(crate) set: u32,
}

impl<'a> Model for SetSummaries<'a> {
    ghost use Rattle.std.specs.List.Sorted.{IsNonDecreasingBy};
    ghost use Rattle.kt_tables.specs.SetRows.{SetRows, unit_key};

    ghost Value = { SetRows };

    ghost view = { λ summaries. record { rows = summaries.rows.now; set = summaries.set } };

    ghost invariant = { λ summaries. IsNonDecreasingBy unit_key summaries.rows.now };
}

impl<'a> SetSummaries<'a> {
    /// The summary of an id; `None` where it has none.
    #[inline]
    pub fn of(&self, id: u32) -> Option<u32>
        ensures value { (find : ℕ → Option ℕ) → AreFound find self.now → result ≡ find id }
    {
        let mut near = likely_place(self.rows, id);
        first_summary(rows_near(self.rows, pair_key(self.set, id), &mut near))
    }

    /// The summaries that ids have, by rising number. An error is want of memory.
    pub fn all(&self, alloc: Global) -> Result<Vec<u32>, AllocError>
        ensures rising { IfOk result (λ all. IsRising all.items) }
        ensures found { IfOk result (λ all. (id summary : ℕ) → summary_at self.now id ≡ Some summary → list_any (nat_eq summary) all.items ≡ true) }
    {
        let mut all: Vec<u32> = self.rows.iter().map(|row| row.summary).collect(alloc)?;
        keep_once(&mut all);
        Ok(all)
    }
}
