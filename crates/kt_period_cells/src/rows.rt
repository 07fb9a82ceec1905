//! All rows of cells, and the index by which they are found.
//! The rules: docs/CALCULATION.md, "Periods".
ghost use Rattle.std.specs.Prelude.{◌≡◌, ◌≤◌, [], map, All, IfOk, Some, None};
ghost use Rattle.kt_period_cells.specs.Rows.{row_keys, entries_of, place_of, Keeps, IsSpot};

use crate::row::Row;
use crate::row_key::{IndexKey, RowKey, index_key};
use kt_money::OutOfMemory;
use kt_rec::{Occurrence, Perspective};
use kt_stream::Pair;
use std::alloc::{AllocError, Global};
use std::collections::HashMap;
use std::marker::Model;

mod adding;
mod gathering;
mod taking;
mod within;

/// The cells of all keys, in rows: a row has those of one summary in one period.
#[derive(Drop)]
pub(crate) struct Rows {
    alloc: Global,
    periods: u32,
    samples: u32,
    /// How many cells there are.
    held: usize,
    rows: Vec<Row>,
    /// Where each row stands.
    index: HashMap<IndexKey, usize>,
}

impl Model for Rows {
    ghost use Rattle.kt_period_cells.specs.Rows.{KeptRows, IsTable};

    ghost Value = { KeptRows };

    ghost view = { λ r. record { periods = r.periods; samples = r.samples; rows = r.rows.items } };

    ghost invariant = { λ r. IsTable r.periods r.samples r.held r.index.entries r.rows.items };
}

/// Where a summary's row of a period stands.
#[derive(Clone, Copy)]
pub(crate) struct Spot {
    /// The period.
    pub(crate) period: u32,
    /// The place of the row.
    pub(crate) row: usize,
}

impl Rows {
    /// No rows yet, for so many periods and samples. Asks for no memory.
    pub(crate) fn new(alloc: Global, periods: u32, samples: u32) -> Self
        requires some { 1 ≤ periods }
        requires few { periods ≤ 100000 }
        requires some_samples { 1 ≤ samples }
        requires few_samples { samples ≤ 1000 }
        ensures value { result ≡ record { periods = periods; samples = samples; rows = [] } }
    {
        Rows {
            alloc,
            periods,
            samples,
            held: 0,
            rows: Vec::new(alloc),
            index: HashMap::new(alloc),
        }
    }

    /// No rows yet, with room for so many. An error is want of memory.
    pub(crate) fn with_room(
        alloc: Global,
        periods: u32,
        samples: u32,
        count: usize,
    ) -> Result<Self, OutOfMemory>
        requires some { 1 ≤ periods }
        requires few { periods ≤ 100000 }
        requires some_samples { 1 ≤ samples }
        requires few_samples { samples ≤ 1000 }
        ensures value { IfOk result (λ made. made ≡ record { periods = periods; samples = samples; rows = [] }) }
    {
        let rows = Vec::with_capacity(alloc, count)?;
        let index = HashMap::with_capacity(alloc, count)?;
        Ok(Rows {
            alloc,
            periods,
            samples,
            held: 0,
            rows,
            index,
        })
    }

    /// Where memory is taken from.
    pub(crate) fn alloc(&self) -> Global {
        self.alloc
    }

    /// Whether a record with these pairs begins rows with a place for each sample: so it does with as many as a quarter of the samples.
    pub(crate) fn is_wide(&self, pairs: &[Pair]) -> bool {
        pairs.len() >= self.samples as usize / 4
    }

    /// Where a row stands.
    fn find(&self, key: RowKey) -> Option<usize>
        ensures value { result ≡ place_of key (row_keys self.now.rows) }
    {
        self.index.get(&index_key(key)).copied()
    }

    /// Puts a row with no cells behind the others: one with a place for each sample, or one that lists its cells. An error is want of memory,
    /// and the rows are then as they were.
    fn open(&mut self, key: RowKey, wide: bool) -> Result<usize, OutOfMemory>
        requires first { 1 ≤ key.period }
        requires last { key.period ≤ self.old.periods }
        requires absent { place_of key (row_keys self.old.rows) ≡ None }
        ensures size { (self.new.periods ≡ self.old.periods) × (self.new.samples ≡ self.old.samples) }
        ensures entries { entries_of self.new.rows ≡ entries_of self.old.rows }
        ensures rows { Keeps (row_keys self.old.rows) (row_keys self.new.rows) }
        ensures ok { IfOk result (λ place. place_of key (row_keys self.new.rows) ≡ Some place) }
    {
        let place = self.rows.len();
        let row = Row::new(self.alloc, key, self.samples, wide)?;
        self.rows.push(row)?;
        match self.index.insert(index_key(key), place) {
            Ok(_) => return Ok(place),
            Err(_) => {}
        }
        self.rows.truncate(place);
        Err(AllocError)
    }

    /// Gives each sample of a row a place, where there is one. An error is want of memory.
    fn widen(&mut self, place: usize) -> Result<(), OutOfMemory>
        ensures size { (self.new.periods ≡ self.old.periods) × (self.new.samples ≡ self.old.samples) }
        ensures entries { entries_of self.new.rows ≡ entries_of self.old.rows }
        ensures rows { row_keys self.new.rows ≡ row_keys self.old.rows }
    {
        if place >= self.rows.len() {
            return Ok(());
        }
        self.rows[place].widen(self.alloc, self.samples)
    }

    /// Where a row stands, which is put behind the others if it is not there, and given a place for each sample where the record
    /// is wide. An error is want of memory.
    fn row(&mut self, key: RowKey, wide: bool) -> Result<usize, OutOfMemory>
        requires first { 1 ≤ key.period }
        requires last { key.period ≤ self.old.periods }
        ensures size { (self.new.periods ≡ self.old.periods) × (self.new.samples ≡ self.old.samples) }
        ensures entries { entries_of self.new.rows ≡ entries_of self.old.rows }
        ensures rows { Keeps (row_keys self.old.rows) (row_keys self.new.rows) }
        ensures ok { IfOk result (λ place. place_of key (row_keys self.new.rows) ≡ Some place) }
    {
        match self.find(key) {
            Some(place) => {
                if wide {
                    self.widen(place)?;
                }
                Ok(place)
            }
            None => self.open(key, wide),
        }
    }

    /// Where a summary's rows of the periods of the occurrences stand. Rows that are not there are put behind the others,
    /// with a place for each sample or with a list of cells. An error is want of memory.
    pub(crate) fn spots(
        &mut self,
        perspective: Perspective,
        set: u32,
        summary: u32,
        at: &[Occurrence],
        wide: bool,
    ) -> Result<Vec<Spot>, OutOfMemory>
        requires periods { All (λ occurrence. (1 ≤ occurrence.period_no) × (occurrence.period_no ≤ self.old.periods)) at.now }
        ensures size { (self.new.periods ≡ self.old.periods) × (self.new.samples ≡ self.old.samples) }
        ensures entries { entries_of self.new.rows ≡ entries_of self.old.rows }
        ensures spots { IfOk result (λ spots. All (IsSpot perspective set summary (row_keys self.new.rows)) spots.items) }
        ensures periods { IfOk result (λ spots. map (λ spot. spot.period) spots.items ≡ map (λ occurrence. occurrence.period_no) at.now) }
    {
        let mut spots = Vec::new(self.alloc);
        for occurrence in at {
            let period = occurrence.period_no;
            let key = RowKey {
                perspective,
                set,
                summary,
                period,
            };
            let row = self.row(key, wide)?;
            spots.push(Spot { period, row })?;
        }
        Ok(spots)
    }
}
