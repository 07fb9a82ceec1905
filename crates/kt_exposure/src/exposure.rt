//! The exposures of summaries: what the distinct coverages of each are worth.
//! The rules: docs/CALCULATION.md, "Summary".
ghost use Rattle.std.specs.Prelude.{◌≡◌, true, ◌<◌, ◌≤◌, ◌^◌, ◌*◌, ◌+◌, ◌-◌, ◌&&◌, ◌||◌, ℕ, nat_eq, length, slice_index_or, unwrap_or, IfOk};
ghost use Rattle.std.specs.List.{IsDistinct, filter, list_any, sum_by};
ghost use Rattle.std.specs.HashMap.{get};
ghost use Rattle.std.specs.Map.{lookup};
ghost use Rattle.kt_keys.specs.Keys.{same_pair};
ghost use Rattle.kt_exposure.specs.declared.exposure.SummaryUnit.{SummaryUnit};
ghost use Rattle.kt_exposure.specs.Exposure.{AreOfOneSummary, summary_covers, value_in, IsTotalOf, AddsUp};

use kt_index::{ByKey, Keyed, keep_once, pair_key, rows_near};
use kt_keys::{UnitTable, first_values};
use std::alloc::{AllocError, Global};
use std::collections::HashMap;

/// A unit whose losses are added to a summary of a set.
#[derive(Clone, Copy, Drop)]
pub struct SummaryUnit {
    /// The summary set.
    pub set: u32,
    /// The summary.
    pub summary: u32,
    /// The item, output or unit.
    pub unit: u32,
}

/// A coverage that an item or a unit is of.
#[derive(Clone, Copy, Drop)]
pub struct UnitCoverage {
    /// The item or unit.
    pub unit: u32,
    /// The coverage.
    pub coverage: u32,
}

impl Keyed for SummaryUnit {
    ghost use Rattle.std.specs.Prelude.{◌*◌, ◌+◌, ◌^◌};

    ghost key_of = { λ row. row.set * 2 ^ 32 + row.summary };

    fn key(&self) -> u64 {
        pair_key(self.set, self.summary)
    }
}

impl Keyed for UnitCoverage {
    ghost key_of = { λ row. row.unit };

    fn key(&self) -> u64 {
        u64::from(self.unit)
    }
}

/// Appends the coverages of pairs.
fn push_coverages(found: &mut Vec<u32>, pairs: &[UnitCoverage]) -> Result<(), AllocError>
    ensures value { IfOk result (λ _. (coverage : ℕ) → list_any (nat_eq coverage) found.new.items ≡ (list_any (nat_eq coverage) found.old.items || list_any (λ pair. nat_eq pair.coverage coverage) pairs.now)) }
{
    for pair in pairs {
        found.push(pair.coverage)?;
    }
    Ok(())
}

/// Whether a row is of a summary of a set.
fn is_of(row: &SummaryUnit, set: u32, summary: u32) -> bool
    ensures value { result ≡ (nat_eq row.now.set set && nat_eq row.now.summary summary) }
{
    row.set == set && row.summary == summary
}

/// Puts the coverages of a summary of a set, one for each row and pair, into a list in place of what was there.
fn list_coverages(
    rows: &[SummaryUnit],
    pairs: &ByKey<UnitCoverage>,
    set: u32,
    summary: u32,
    found: &mut Vec<u32>,
) -> Result<(), AllocError>
    ensures value { IfOk result (λ _. (coverage : ℕ) → list_any (nat_eq coverage) found.new.items ≡ summary_covers rows.now pairs.now (set, summary) coverage) }
{
    found.clear();
    for row in rows {
        if is_of(row, set, summary) {
            push_coverages(found, pairs.of(u64::from(row.unit)))?;
        }
    }
    Ok(())
}

/// What coverages are worth together.
fn value_of(tivs: &UnitTable<u64>, coverages: &[u32]) -> u64
    requires values { AddsUp (value_in tivs.now) }
    requires distinct { IsDistinct nat_eq coverages.now }
    ensures value { result ≡ sum_by (value_in tivs.now) coverages.now }
{
    coverages
        .iter()
        .map(|coverage| tivs.of(0, *coverage).unwrap_or(0))
        .sum()
}

/// What the coverages of a summary of a set are worth. They are listed where those of other summaries were.
fn summary_value(
    rows: &[SummaryUnit],
    pairs: &ByKey<UnitCoverage>,
    tivs: &UnitTable<u64>,
    set: u32,
    summary: u32,
    coverages: &mut Vec<u32>,
) -> Result<u64, AllocError>
    requires { AddsUp (value_in tivs.now) }
    ensures value { IfOk result (IsTotalOf (summary_covers rows.now pairs.now (set, summary)) (value_in tivs.now)) }
{
    list_coverages(rows, pairs, set, summary, coverages)?;
    keep_once(coverages);
    Ok(value_of(tivs, coverages))
}

/// The exposures of the summaries of rows, one after the other: for each pair of a set and a summary, what the coverages of its
/// units are worth, each once. What is not there is 0. The rows are put in order where they are. An error is want of memory.
pub fn exposure_list(
    alloc: Global,
    rows: Vec<SummaryUnit>,
    pairs: Vec<UnitCoverage>,
    tivs: &UnitTable<u64>,
) -> Result<Vec<((u32, u32), u64)>, AllocError>
    requires { AddsUp (value_in tivs.now) }
    ensures value { IfOk result (λ totals. (key : ℕ × ℕ) → IsTotalOf (summary_covers rows.items pairs.items key) (value_in tivs.now) (unwrap_or (lookup (same_pair key) totals.items) 0)) }
{
    let rows = ByKey::of_rows(rows)?;
    let pairs = ByKey::of_rows(pairs)?;
    totals_of(alloc, &rows, &pairs, tivs)
}

/// What each pair has, to be looked up.
fn hashed(
    alloc: Global,
    totals: &[((u32, u32), u64)],
) -> Result<HashMap<(u32, u32), u64>, AllocError>
    ensures value { IfOk result (λ found. (key : ℕ × ℕ) → get same_pair found key ≡ lookup (same_pair key) totals.now) }
{
    first_values(alloc, totals)
}

/// The exposures of the summaries of rows: for each pair of a set and a summary, what the coverages of its units are worth,
/// each once. What is not there is 0. The rows are put in order where they are. An error is want of memory.
pub fn exposures(
    alloc: Global,
    rows: Vec<SummaryUnit>,
    pairs: Vec<UnitCoverage>,
    tivs: &UnitTable<u64>,
) -> Result<HashMap<(u32, u32), u64>, AllocError>
    requires { AddsUp (value_in tivs.now) }
    ensures value { IfOk result (λ totals. (key : ℕ × ℕ) → IsTotalOf (summary_covers rows.items pairs.items key) (value_in tivs.now) (unwrap_or (get same_pair totals key) 0)) }
{
    let totals = exposure_list(alloc, rows, pairs, tivs)?;
    let found = hashed(alloc, &totals)?;
    Ok(found)
}

/// The rows of a key among rows in its order. They are looked for first at a place where they may stand.
fn group_at(rows: &ByKey<SummaryUnit>, place: usize, key: u64) -> &[SummaryUnit]
    ensures value { result.now ≡ filter (λ row. nat_eq (row.set * 2 ^ 32 + row.summary) key) rows.now }
{
    let mut near = place;
    let found = rows_near(rows.as_slice(), key, &mut near);
    found
}

/// Whether a row is of the summary of the row before it.
fn goes_on(rows: &[SummaryUnit], place: usize) -> bool
    requires { place < length rows.now }
    ensures same { result ≡ true → (d : SummaryUnit) → AreOfOneSummary (slice_index_or rows.now (place - 1) d) (slice_index_or rows.now place d) }
    ensures later { result ≡ true → 1 ≤ place }
{
    if place == 0 {
        return false;
    }
    is_of(&rows[place - 1], rows[place].set, rows[place].summary)
}

/// The exposures of the summaries of sorted rows.
fn totals_of(
    alloc: Global,
    rows: &ByKey<SummaryUnit>,
    pairs: &ByKey<UnitCoverage>,
    tivs: &UnitTable<u64>,
) -> Result<Vec<((u32, u32), u64)>, AllocError>
    requires { AddsUp (value_in tivs.now) }
    ensures value { IfOk result (λ totals. (key : ℕ × ℕ) → IsTotalOf (summary_covers rows.now pairs.now key) (value_in tivs.now) (unwrap_or (lookup (same_pair key) totals.items) 0)) }
{
    let mut totals: Vec<((u32, u32), u64)> = Vec::new(alloc);
    let mut coverages = Vec::new(alloc);
    let all = rows.as_slice();
    for (place, row) in all.iter().enumerate() {
        let (set, summary) = (row.set, row.summary);
        if !goes_on(all, place) {
            let group = group_at(rows, place, row.key());
            let value = summary_value(group, pairs, tivs, set, summary, &mut coverages)?;
            totals.push(((set, summary), value))?;
        }
    }
    Ok(totals)
}
