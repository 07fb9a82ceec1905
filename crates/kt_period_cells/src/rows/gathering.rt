//! The rows of a perspective and set.
//! The rules: docs/CALCULATION.md, "Periods".
ghost use Rattle.std.specs.Prelude.{◌≡◌, ◌++◌, ◌∷◌, [], IfOk, OnOk, if◌then◌else◌};
ghost use Rattle.kt_period_cells.specs.Rows.{entries_of};
ghost use Rattle.kt_period_cells.specs.SummaryRows.{IsOwnSet, IsSetOf, places_from, is_listed, summary_row};

use super::Rows;
use crate::group::{SetCells, SummaryRow, summaries_of};
use crate::row::Row;
use kt_index::ByKey;
use kt_money::OutOfMemory;
use kt_rec::Perspective;

/// How many rows, or somewhat fewer, a share of the rows is told by.
const SAMPLED_ROWS: usize = 512;

impl Rows {
    /// About which share of the rows a perspective and set have: how many they have of up to 512 rows that are evenly spread over all.
    pub(crate) fn share_of(&self, perspective: Perspective, set: u32) -> usize {
        let step = self.rows.len() / SAMPLED_ROWS + 1;
        self.rows
            .chunks(step)
            .filter_map(|rows| rows.first())
            .filter(|row| row.key.perspective == perspective && row.key.set == set)
            .count()
    }

    /// The rows of a perspective and set that have cells, in their order. An error is want of memory.
    fn gathered(&self, perspective: Perspective, set: u32) -> Result<Vec<SummaryRow>, OutOfMemory>
        ensures { IfOk result (λ found. found.items ≡ places_from 0 perspective set self.now.rows) }
    {
        let mut found = Vec::new(self.alloc);
        for (place, row) in self.rows.iter().enumerate() {
            push_row(&mut found, row, place, perspective, set)?;
        }
        Ok(found)
    }

    /// The rows of a perspective and set that have cells, by rising summary. An error is want of memory.
    fn set_places(
        &self,
        perspective: Perspective,
        set: u32,
    ) -> Result<ByKey<SummaryRow>, OutOfMemory>
        ensures value { IfOk result (IsSetOf self.now perspective set) }
    {
        // The rows say that their keys differ.
        let _held = self.held;
        let found = self.gathered(perspective, set)?;
        ByKey::of_rows(found)
    }

    /// The cells of a perspective and set, by summary. An error is want of memory.
    pub(crate) fn of_set(
        &self,
        perspective: Perspective,
        set: u32,
    ) -> Result<SetCells<'_>, OutOfMemory>
        ensures { IfOk result (IsOwnSet (record { periods = self.now.periods; samples = self.now.samples; entries = entries_of self.now.rows }) perspective set) }
    {
        let places = self.set_places(perspective, set)?;
        let ids = summaries_of(self.alloc, &places)?;
        Ok(SetCells {
            perspective,
            set,
            rows: self.rows.as_slice(),
            places,
            ids,
            periods: self.periods,
            samples: self.samples,
        })
    }
}

/// Appends the place of a row that is of a perspective and set and has cells. An error is want of memory.
fn push_row(
    found: &mut Vec<SummaryRow>,
    row: &Row,
    place: usize,
    perspective: Perspective,
    set: u32,
) -> Result<(), OutOfMemory>
    ensures ok { OnOk result (found.new.items ≡ found.old.items ++ (if is_listed perspective set row.now then summary_row row.now.key.summary place ∷ [] else [])) }
{
    if is_listed(row, perspective, set) {
        found.push(SummaryRow {
            summary: row.key.summary,
            row: place,
        })?;
    }
    Ok(())
}

/// Whether a row is of a perspective and set and has cells.
fn is_listed(row: &Row, perspective: Perspective, set: u32) -> bool
    ensures value { result ≡ is_listed perspective set row.now }
{
    row.key.perspective == perspective && row.key.set == set && row.has_cells()
}
