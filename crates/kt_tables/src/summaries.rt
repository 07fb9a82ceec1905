//! The summaries of items or of outputs, by set and id, with their exposures.
//! The rules: docs/TABLES.md, "Lookups"; docs/CALCULATION.md, "Summary".
ghost use Rattle.std.specs.Prelude.{◌≡◌, true, ℕ, ◌-◌, ◌<◌, ◌≤◌, nat_eq, length, map, IfOk, option_map, slice_get, slice_index_or};
ghost use Rattle.std.specs.HashSet.{contains};
ghost use Rattle.std.specs.List.{list_any};
ghost use Rattle.kt_exposure.specs.declared.exposure.SummaryUnit.{SummaryUnit};
ghost use Rattle.kt_tables.specs.Kept.{AreSummaries};

use crate::columns::parts_of;
use kt_exposure::SummaryUnit;
use kt_index::{ByKey, Keyed, pair_key};
use std::alloc::{AllocError, Global};
use std::collections::{HashMap, HashSet};

/// The summary that a unit has in a set.
#[derive(Clone, Copy, Drop)]
pub(crate) struct UnitSummary {
    pub(crate) set: u32,
    pub(crate) unit: u32,
    pub(crate) summary: u32,
}

impl Keyed for UnitSummary {
    ghost use Rattle.std.specs.Prelude.{◌*◌, ◌+◌, ◌^◌};

    ghost key_of = { λ row. row.set * 2 ^ 32 + row.unit };

    fn key(&self) -> u64 {
        pair_key(self.set, self.unit)
    }
}

/// The summary of the first row, where there is one.
pub(crate) fn first_summary(rows: &[UnitSummary]) -> Option<u32>
    ensures value { result ≡ option_map (λ row. row.summary) (slice_get rows.now 0) }
{
    let row = rows.first()?;
    Some(row.summary)
}

/// Whether a row is of the set of the row before it.
fn goes_on(rows: &[SummaryUnit], place: usize) -> bool
    requires { place < length rows.now }
    ensures same { result ≡ true → (d : SummaryUnit) → (slice_index_or rows.now (place - 1) d).set ≡ (slice_index_or rows.now place d).set }
    ensures later { result ≡ true → 1 ≤ place }
{
    if place == 0 {
        return false;
    }
    rows[place - 1].set == rows[place].set
}

/// The sets of summaries. Each is put in once for rows that stand together.
fn sets_of(alloc: Global, rows: &[SummaryUnit]) -> Result<HashSet<u32>, AllocError>
    ensures value { IfOk result (λ sets. (set : ℕ) → contains nat_eq sets set ≡ list_any (nat_eq set) (map (λ row. row.set) rows.now)) }
{
    let mut sets: HashSet<u32> = HashSet::new(alloc);
    for (place, row) in rows.iter().enumerate() {
        if !goes_on(rows, place) {
            sets.insert(row.set)?;
        }
    }
    Ok(sets)
}

/// The summaries of items or of outputs.
#[derive(Drop)]
pub(crate) struct Summaries {
    /// The summary sets.
    pub(crate) sets: HashSet<u32>,
    /// The summaries of ids, by set and id.
    pub(crate) by_id: ByKey<UnitSummary>,
    /// The exposures of the summaries, by set and summary.
    pub(crate) exposures: HashMap<(u32, u32), u64>,
}

impl Summaries {
    /// The summaries of rows with their exposures. An error is want of memory.
    pub(crate) fn new(
        alloc: Global,
        rows: &[SummaryUnit],
        exposures: HashMap<(u32, u32), u64>,
    ) -> Result<Summaries, AllocError>
        ensures value { IfOk result (AreSummaries rows.now) }
        ensures exposures { IfOk result (λ summaries. summaries.exposures ≡ exposures) }
    {
        let units = parts_of(alloc, rows)?;
        Ok(Summaries {
            sets: sets_of(alloc, rows)?,
            by_id: ByKey::of_rows(units)?,
            exposures,
        })
    }
}
