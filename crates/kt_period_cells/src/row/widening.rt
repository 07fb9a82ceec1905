//! A place for each sample in a row that lists its cells.
//! The rules: docs/CALCULATION.md, "Periods".
ghost use Rattle.std.specs.Prelude.{◌≡◌, ◌⊎◌, ◌+◌, ◌≤◌, All, IfOk, length};
ghost use Rattle.kt_period_cells.specs.RowCells.{IsRising, IsWide, CellFits, cells_of, placed};
ghost use Rattle.kt_cell.specs.Standing.{most_total};

use super::{Row, no_cells};
use kt_cell::{Cell, MOST_TOTAL};
use kt_money::OutOfMemory;
use std::alloc::Global;

/// Places for the mean and so many samples, with these cells. An error is want of memory.
fn places_of(alloc: Global, cells: &[(u32, Cell)], samples: u32) -> Result<Vec<Cell>, OutOfMemory>
    requires samples { samples ≤ 1000 }
    requires rising { IsRising cells.now }
    requires fits { All (CellFits samples) cells.now }
    ensures len { IfOk result (λ places. length places.items ≡ samples + 1) }
    ensures cells { IfOk result (λ places. placed 0 places.items ≡ cells.now) }
{
    let mut places = no_cells(alloc, samples)?;
    for one in cells {
        places[one.0 as usize] = one.1;
    }
    Ok(places)
}

impl Row {
    /// Gives each sample a place, where the cells are listed. An error is want of memory, and the row is then as it was.
    pub(crate) fn widen(&mut self, alloc: Global, samples: u32) -> Result<(), OutOfMemory>
        requires samples { samples ≤ 1000 }
        requires rising { IsRising (cells_of self.old) }
        requires fits { All (CellFits samples) (cells_of self.old) }
        requires wide { IsWide samples self.old.places.items }
        ensures key { self.new.key ≡ self.old.key }
        ensures cells { cells_of self.new ≡ cells_of self.old }
        ensures wide { IsWide samples self.new.places.items }
        ensures bound { (self.new ≡ self.old) ⊎ (self.new.most ≡ most_total) }
    {
        if !self.places.is_empty() {
            return Ok(());
        }
        self.places = places_of(alloc, self.listed.as_slice(), samples)?;
        self.listed = Vec::new(alloc);
        self.most = MOST_TOTAL;
        Ok(())
    }
}
