//! A row of cells: what one summary has in one period.
//! The rules: docs/CALCULATION.md, "Periods".
ghost use Rattle.std.specs.Prelude.{◌≡◌, ◌⊎◌, ◌+◌, ◌≤◌, [], IfOk, IfSome, OnOk, OnErr, Some, None, true, is_some, length};
ghost use Rattle.kt_period_cells.specs.RowCells.{AreLow, HasBound, IsRising, HasPlace, IsWide, Changes, Lowers, cell_in, cells_of, placed};
ghost use Rattle.kt_cell.specs.Standing.{most_total};
ghost use Rattle.kt_period_cells.specs.SummaryRows.{has_any};

use crate::row_key::RowKey;
use kt_cell::{Cell, MOST_TOTAL, has_placed};
use kt_money::OutOfMemory;
use std::alloc::Global;

mod listed;
mod room;
mod widening;

use listed::{listed_cell, place};

/// What a summary has in a period: its cells by rising sample, that of the mean being 0. It may have none. They are listed, or each sample
/// has a place.
#[derive(Drop)]
pub struct Row {
    /// Which row.
    pub(crate) key: RowKey,
    /// Where the next listed cell is looked for first.
    next: usize,
    /// The cells, each with its sample, where there are no places.
    listed: Vec<(u32, Cell)>,
    /// The cells of all samples, where there are any: a total of 0 is no cell.
    places: Vec<Cell>,
    /// A bound in cents: no total of the places is above it, so that most records have room without a look at the totals.
    most: u64,
}

/// No cell.
const NO_CELL: Cell = Cell {
    total: 0,
    maximum: 0,
};

/// The cell of a sample among the places of all samples, that of the mean being 0.
pub fn placed_cell(places: &[Cell], sample: u32) -> Option<Cell>
    ensures value { result ≡ cell_in (placed 0 places.now) sample }
{
    let at = sample as usize;
    if at >= places.len() {
        return None;
    }
    let cell = places[at];
    if cell.total == 0 { None } else { Some(cell) }
}

/// Places for the mean and so many samples, without cells. An error is want of memory.
fn no_cells(alloc: Global, samples: u32) -> Result<Vec<Cell>, OutOfMemory>
    requires { samples ≤ 1000 }
    ensures len { IfOk result (λ places. length places.items ≡ samples + 1) }
    ensures none { IfOk result (λ places. placed 0 places.items ≡ []) }
    ensures low { IfOk result (λ places. AreLow 0 places.items) }
{
    vec![in alloc; NO_CELL; samples as usize + 1]
}

impl Row {
    /// A row with no cells, which has a place for each sample or lists its cells. An error is want of memory.
    pub(crate) fn new(
        alloc: Global,
        key: RowKey,
        samples: u32,
        wide: bool,
    ) -> Result<Self, OutOfMemory>
        requires { samples ≤ 1000 }
        ensures key { IfOk result (λ row. row.key ≡ key) }
        ensures cells { IfOk result (λ row. cells_of row ≡ []) }
        ensures wide { IfOk result (λ row. IsWide samples row.places.items) }
        ensures bound { IfOk result HasBound }
        ensures placed { wide ≡ true → IfOk result (λ row. (length row.places.items ≡ samples + 1) × AreLow 0 row.places.items) }
    {
        let places = if wide {
            no_cells(alloc, samples)?
        } else {
            Vec::new(alloc)
        };
        Ok(Row {
            key,
            next: 0,
            listed: Vec::new(alloc),
            places,
            most: 0,
        })
    }

    /// The period, from 1.
    #[inline]
    pub fn period(&self) -> u32
        ensures value { result ≡ self.now.key.period }
    {
        self.key.period
    }

    /// The places of the mean and of all samples, where there are any: a total of 0 is no cell.
    #[inline]
    pub fn places(&self) -> &[Cell]
        ensures value { result.now ≡ self.now.places.items }
    {
        self.places.as_slice()
    }

    /// The cells by rising sample, each with its sample, that of the mean being 0, where there are no places.
    #[inline]
    pub fn listed(&self) -> &[(u32, Cell)]
        ensures value { result.now ≡ self.now.listed.items }
    {
        self.listed.as_slice()
    }

    /// Whether the row has a cell.
    pub(crate) fn has_cells(&self) -> bool
        ensures value { result ≡ has_any (cells_of self.now) }
    {
        if self.places.is_empty() {
            return !self.listed.is_empty();
        }
        has_placed(self.places.as_slice())
    }

    /// The cell of a sample, that of the mean being 0.
    pub fn cell(&self, sample: u32) -> Option<Cell>
        requires { IsRising (cells_of self.now) }
        ensures value { result ≡ cell_in (cells_of self.now) sample }
    {
        if self.places.is_empty() {
            return listed_cell(self.listed.as_slice(), self.next, sample);
        }
        placed_cell(self.places.as_slice(), sample)
    }

    /// Sets the cell of a sample. Only a new listed cell may want memory, and the cells are then as they were.
    pub(crate) fn set(&mut self, sample: u32, cell: Cell) -> Result<(), OutOfMemory>
        requires rising { IsRising (cells_of self.old) }
        requires place { HasPlace sample self.old.places.items }
        requires some { 1 ≤ cell.total }
        ensures ok { OnOk result (Changes self.old self.new sample (Some cell)) }
        ensures err { OnErr result ((self.new.key ≡ self.old.key) × (self.new.places.items ≡ self.old.places.items) × (cells_of self.new ≡ cells_of self.old) × (cell_in (cells_of self.old) sample ≡ None)) }
        ensures bound { self.new.most ≡ most_total }
    {
        self.most = MOST_TOTAL;
        if self.places.is_empty() {
            return self.list(sample, cell);
        }
        self.places[sample as usize] = cell;
        Ok(())
    }

    /// Sets the listed cell of a sample.
    fn list(&mut self, sample: u32, cell: Cell) -> Result<(), OutOfMemory>
        requires listed { self.old.places.items ≡ [] }
        requires rising { IsRising self.old.listed.items }
        ensures ok { OnOk result (Changes self.old self.new sample (Some cell)) }
        ensures err { OnErr result ((self.new.key ≡ self.old.key) × (self.new.places.items ≡ self.old.places.items) × (cells_of self.new ≡ cells_of self.old) × (cell_in (cells_of self.old) sample ≡ None)) }
        ensures bound { self.new.most ≡ self.old.most }
    {
        match place(self.listed.as_slice(), self.next, sample) {
            Ok(at) => {
                self.listed[at] = (sample, cell);
                self.next = at + 1;
                Ok(())
            }
            Err(at) => {
                self.listed.insert(at, (sample, cell))?;
                self.next = at + 1;
                Ok(())
            }
        }
    }

    /// Puts another cell in the place of that of a sample, or takes it out.
    fn replace(&mut self, sample: u32, cell: Option<Cell>)
        requires rising { IsRising (cells_of self.old) }
        requires there { is_some (cell_in (cells_of self.old) sample) ≡ true }
        requires some { IfSome cell (λ cell. 1 ≤ cell.total) }
        ensures value { Changes self.old self.new sample cell }
        ensures bound { self.new.most ≡ self.old.most }
    {
        if self.places.is_empty() {
            self.relist(sample, cell);
            return;
        }
        self.places[sample as usize] = cell.unwrap_or(NO_CELL);
    }

    /// Puts another cell in the place of the listed one of a sample, or takes it out.
    fn relist(&mut self, sample: u32, cell: Option<Cell>)
        requires listed { self.old.places.items ≡ [] }
        requires rising { IsRising self.old.listed.items }
        requires there { is_some (cell_in self.old.listed.items sample) ≡ true }
        ensures value { Changes self.old self.new sample cell }
        ensures bound { self.new.most ≡ self.old.most }
    {
        match place(self.listed.as_slice(), self.next, sample) {
            Ok(at) => match cell {
                Some(cell) => self.listed[at] = (sample, cell),
                None => {
                    self.listed.remove(at);
                }
            },
            Err(_) => {}
        }
    }

    /// Takes a loss from the cell of a sample, which has the greatest loss before then, or is taken out where nothing is left.
    /// Returns the number of cells that were taken out.
    pub(crate) fn lower(&mut self, sample: u32, loss: u64, greatest: u64) -> usize
        requires { IsRising (cells_of self.old) }
        ensures value { Lowers self.old self.new sample loss greatest result }
        ensures bound { (self.new ≡ self.old) ⊎ (self.new.most ≡ most_total) }
    {
        let cell = match self.cell(sample) {
            Some(cell) => cell,
            None => return 0,
        };
        self.most = MOST_TOTAL;
        if cell.total <= loss {
            self.replace(sample, None);
            return 1;
        }
        let left = Cell {
            total: cell.total - loss,
            maximum: greatest,
        };
        self.replace(sample, Some(left));
        0
    }
}
