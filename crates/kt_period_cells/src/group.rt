//! The cells of a perspective and set, and those of one summary among them.
//! The rules: docs/CALCULATION.md, "Periods".
ghost use Rattle.std.specs.Prelude.{◌≡◌, ℕ, ◌++◌, ◌∷◌, [], IfOk, OnOk, nat_eq, if◌then◌else◌};
ghost use Rattle.std.specs.List.{list_any};
ghost use Rattle.kt_rec.specs.Rising.{IsRising};
ghost use Rattle.kt_period_cells.specs.SummaryRows.{part_entries, group_entries, is_new, IsPart, IsSummary};

use crate::row::Row;
use kt_index::{ByKey, Keyed};
use kt_money::OutOfMemory;
use kt_rec::Perspective;
use std::alloc::Global;

/// A row of a summary.
#[derive(Clone, Copy, Drop)]
pub struct SummaryRow {
    /// The summary id.
    pub(crate) summary: u32,
    /// The place of the row among all rows.
    pub row: usize,
}

impl Keyed for SummaryRow {
    ghost key_of = { λ place. place.summary };

    fn key(&self) -> u64 {
        u64::from(self.summary)
    }
}

/// The cells of a perspective and set, by summary.
#[derive(Drop)]
pub struct SetCells<'a> {
    /// Whose losses.
    pub perspective: Perspective,
    /// The summary set.
    pub set: u32,
    /// All rows.
    pub(crate) rows: &'a [Row],
    /// The rows of the set that have cells, by summary.
    pub(crate) places: ByKey<SummaryRow>,
    /// Their summaries, by rising id.
    pub(crate) ids: Vec<u32>,
    /// The number of periods.
    pub periods: u32,
    /// The number of samples.
    pub samples: u32,
}

/// A summary's cells, and what a table takes of them.
#[derive(Clone, Copy)]
pub struct SummaryCells<'a> {
    /// Whose losses.
    pub perspective: Perspective,
    /// The summary set.
    pub set: u32,
    /// The summary id.
    pub summary: u32,
    /// All rows.
    pub rows: &'a [Row],
    /// Which of them are the summary's.
    pub places: &'a [SummaryRow],
    /// The number of periods.
    pub periods: u32,
    /// The number of samples.
    pub samples: u32,
    /// Whether the maxima are taken, or the totals.
    pub maxima: bool,
}

/// The summaries of rows, by rising id, each once. An error is want of memory.
pub(crate) fn summaries_of(
    alloc: Global,
    places: &ByKey<SummaryRow>,
) -> Result<Vec<u32>, OutOfMemory>
    ensures rising { IfOk result (λ ids. IsRising ids.items) }
    ensures members { IfOk result (λ ids. (id : ℕ) → list_any (nat_eq id) ids.items ≡ list_any (λ place. nat_eq id place.summary) places.now) }
{
    let mut ids = Vec::new(alloc);
    for place in places.as_slice() {
        push_new(&mut ids, place.summary)?;
    }
    Ok(ids)
}

/// Appends an id where it is not the last. An error is want of memory.
fn push_new(ids: &mut Vec<u32>, id: u32) -> Result<(), OutOfMemory>
    ensures ok { OnOk result (ids.new.items ≡ (if is_new id ids.old.items then ids.old.items ++ id ∷ [] else ids.old.items)) }
{
    if is_new(ids.as_slice(), id) {
        ids.push(id)?;
    }
    Ok(())
}

/// Whether an id is not the last of these.
fn is_new(ids: &[u32], id: u32) -> bool
    ensures value { result ≡ is_new id ids.now }
{
    let count = ids.len();
    count == 0 || ids[count - 1] != id
}

impl<'a> SetCells<'a> {
    /// The ids of the summaries with a cell, rising.
    pub fn summaries(&self) -> &[u32]
        ensures value { result.now ≡ self.now.ids.items }
    {
        self.ids.as_slice()
    }

    /// The cells of a summary, of which a table takes the maxima or the totals.
    pub fn summary(&self, summary: u32, maxima: bool) -> SummaryCells<'_>
        requires { IsPart self.now }
        ensures summary { IsSummary result }
        ensures entries { group_entries result ≡ part_entries self.now summary }
        ensures of_set { (result.perspective ≡ self.now.perspective) × (result.set ≡ self.now.set) × (result.summary ≡ summary) }
        ensures size { (result.periods ≡ self.now.periods) × (result.samples ≡ self.now.samples) × (result.maxima ≡ maxima) }
    {
        SummaryCells {
            perspective: self.perspective,
            set: self.set,
            summary,
            rows: self.rows,
            places: self.places.of(u64::from(summary)),
            periods: self.periods,
            samples: self.samples,
            maxima,
        }
    }
}
