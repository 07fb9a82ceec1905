//! The period totals and maxima of all records that were added.
//! The rules: docs/CALCULATION.md, "Periods".
ghost use Rattle.std.specs.Prelude.{◌≡◌, ◌≤◌, ◌^◌, pos, ◌≤ℤ◌, List, [], All, IfOk};
ghost use Rattle.kt_cell.specs.Losses.{Added};
ghost use Rattle.kt_cell.specs.Standing.{StandsFor};
ghost use Rattle.kt_period_cells.specs.Journal.{Adds, TakesOver};
ghost use Rattle.kt_period_cells.specs.SummaryRows.{IsOwnSet};

use crate::group::SetCells;
use crate::rows::Rows;
use kt_cell::{CellStop, adds_any};
use kt_money::OutOfMemory;
use kt_rec::{Occurrence, Perspective};
use kt_stream::SummaryRecord;
use std::alloc::Global;
use std::marker::Model;

/// The losses of all records that were added: for each perspective, set, summary id, sidx and period the total and the
/// greatest loss. Only keys with a total above 0 are held.
#[derive(Drop)]
pub struct Cells {
    rows: Rows,
    /// How many other cells were offered, and the rows of how many of them were taken over.
    offered: u64,
    taken: u64,
}

impl Model for Cells {
    ghost use Rattle.kt_cell.specs.Standing.{KeptCells};
    ghost use Rattle.kt_period_cells.specs.Rows.{entries_of};

    ghost Value = { KeptCells };

    ghost view = { λ c. record { periods = c.rows.periods; samples = c.rows.samples; entries = entries_of c.rows.rows } };
}

impl Cells {
    /// No cells yet, for so many periods, from 1 to 100,000, and so many samples, from 1 to 1,000. Asks for no memory.
    pub fn new(alloc: Global, periods: u32, samples: u32) -> Self
        requires some { 1 ≤ periods }
        requires few { periods ≤ 100000 }
        requires some_samples { 1 ≤ samples }
        requires few_samples { samples ≤ 1000 }
        ensures value { result ≡ record { periods = periods; samples = samples; entries = [] } }
    {
        Cells {
            rows: Rows::new(alloc, periods, samples),
            offered: 0,
            taken: 0,
        }
    }

    /// The same with room for the rows of so many summaries and periods. An error is want of memory.
    pub fn with_room(
        alloc: Global,
        periods: u32,
        samples: u32,
        count: usize,
    ) -> Result<Self, OutOfMemory>
        requires some { 1 ≤ periods }
        requires few { periods ≤ 100000 }
        requires some_samples { 1 ≤ samples }
        requires few_samples { samples ≤ 1000 }
        ensures value { IfOk result (λ made. made ≡ record { periods = periods; samples = samples; entries = [] }) }
    {
        let rows = Rows::with_room(alloc, periods, samples, count)?;
        Ok(Cells {
            rows,
            offered: 0,
            taken: 0,
        })
    }

    /// Adds a record's losses to the totals and maxima of the periods in which its event occurs. An error names the first
    /// pair and occurrence that pass a limit, or is want of memory; the cells then stand for what they stood for before.
    /// The periods of the occurrences are those of the cells, the sidx at most their samples, and each loss at most 10^16
    /// cents. A sidx that is neither -1 nor from 1 up is passed over.
    pub fn add(
        &mut self,
        perspective: Perspective,
        set: u32,
        entry: &SummaryRecord,
        at: &[Occurrence],
    ) -> Result<(), CellStop>
        requires periods { All (λ occurrence. (1 ≤ occurrence.period_no) × (occurrence.period_no ≤ self.old.periods)) at.now }
        requires sidx { All (λ pair. pair.sidx ≤ℤ pos self.old.samples) entry.now.pairs }
        requires losses { All (λ pair. pair.loss ≤ 10 ^ 16) entry.now.pairs }
        ensures added { (history : List Added) → StandsFor history self.old → Adds history (record { perspective = perspective; set = set; entry = entry.now; at = at.now }) result self.new }
        ensures size { (self.new.periods ≡ self.old.periods) × (self.new.samples ≡ self.old.samples) }
    {
        let pairs = entry.pairs.as_slice();
        // A record without a loss opens no row.
        if !adds_any(pairs) {
            return Ok(());
        }
        let wide = self.rows.is_wide(pairs);
        let spots = match self.rows.spots(perspective, set, entry.summary, at, wide) {
            Ok(spots) => spots,
            Err(_) => return Err(CellStop::OutOfMemory),
        };
        let struck = spots.as_slice();
        if let Some(sum) = self.rows.sum_with_room(pairs, struck) {
            self.rows.add_within(pairs, sum, struck);
            return Ok(());
        }
        // Some loss may pass a limit: the losses are noted, so that they can be taken back.
        let mut journal = match Vec::with_capacity(self.rows.alloc(), pairs.len()) {
            Ok(journal) => journal,
            Err(_) => return Err(CellStop::OutOfMemory),
        };
        match self.rows.add_pairs(perspective, set, entry.summary, pairs, struck, &mut journal) {
            Ok(()) => Ok(()),
            Err(stop) => {
                self.rows.take_all_back(journal);
                Err(stop)
            }
        }
    }

    /// Adds the records of other cells by taking over their rows, and answers whether it did: it does where these cells have none of the
    /// rows, both are for as many periods and samples, and there is room for the cells of both. Where it does not the cells stand for what
    /// they stood for before, as after want of memory, which is the error.
    pub fn take_over(&mut self, other: Cells) -> Result<bool, OutOfMemory>
        ensures taken { (history more : List Added) → StandsFor history self.old → StandsFor more other → TakesOver history more result self.new }
        ensures size { (self.new.periods ≡ self.old.periods) × (self.new.samples ≡ self.old.samples) }
    {
        self.offered = self.offered.saturating_add(1);
        let is_taken = self.rows.take_over(other.rows)?;
        if is_taken {
            self.taken = self.taken.saturating_add(1);
        }
        Ok(is_taken)
    }

    /// Whether it is worth while to make the cells of records by themselves, so that their rows can be taken over: those of half of the cells
    /// that were offered were.
    pub fn wants_more(&self) -> bool {
        self.offered / 2 <= self.taken
    }

    /// About which share of all rows of cells a perspective and set have: how many they have of up to 512 rows that are evenly spread over
    /// all. Who makes tables of several sets can begin with the greatest; no table depends on it.
    pub fn share_of(&self, perspective: Perspective, set: u32) -> usize {
        self.rows.share_of(perspective, set)
    }

    /// The cells of a perspective and set, by summary. An error is want of memory.
    pub fn of_set(&self, perspective: Perspective, set: u32) -> Result<SetCells<'_>, OutOfMemory>
        ensures { IfOk result (IsOwnSet self.now perspective set) }
    {
        self.rows.of_set(perspective, set)
    }

    /// Where memory is taken from.
    pub fn alloc(&self) -> Global {
        self.rows.alloc()
    }
}
