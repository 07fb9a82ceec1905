//! What the distinct coverages beneath units are worth.
//! The rule: docs/FINANCIAL_MODULE.md, "Levels".
ghost use Rattle.std.specs.Prelude.{◌≡◌, ◌≤◌, Bool, ℕ, length, nat_eq, map, unwrap_or, All, IfOk};
ghost use Rattle.std.specs.List.{IsDistinct, filter_map, flat_map, list_any};
ghost use Rattle.std.specs.Map.{lookup};
ghost use Rattle.std.specs.HashMap.{get};
ghost use Rattle.kt_rec.specs.Ranges.{IsCoverage};
ghost use Rattle.kt_rec.specs.Rows.{rows_of};
ghost use Rattle.kt_keys.specs.UnitTable.{value_of};
ghost use Rattle.kt_exposure.specs.declared.exposure.SummaryUnit.{SummaryUnit};
ghost use Rattle.kt_exposure.specs.Exposure.{IsTotalOf, summary_covers};
ghost use Rattle.kt_checks.specs.TableChecks.{tiv_of};
ghost use Rattle.kt_fmtree.specs.Programme.{coverage_of, covered_ids};
ghost use Rattle.kt_structure.specs.Coverages.{own_pair, row_up, rows_for, start_row};

use kt_checks::tivs as coverage_tivs;
use kt_exposure::{SummaryUnit, UnitCoverage, exposure_list};
use kt_keys::{UnitTable, first_values};
use kt_rec::{Coverage, FmXref, Item, Tables};
use std::alloc::{AllocError, Global};
use std::collections::HashMap;

/// The items with their coverages.
fn covered_items(alloc: Global, items: &[Item]) -> Result<Vec<(u32, Option<u32>)>, AllocError>
    ensures value { IfOk result (λ covered. covered.items ≡ map (λ row. (row.item_id, Some row.coverage_id)) items.now) }
{
    items
        .iter()
        .map(|row| (row.item_id, Some(row.coverage_id)))
        .collect(alloc)
}

/// The coverages of items, by item.
fn item_coverages(alloc: Global, items: &[Item]) -> Result<HashMap<u32, u32>, AllocError>
    ensures value { IfOk result (λ found. (id : ℕ) → get nat_eq found id ≡ coverage_of items.now id) }
{
    let pairs = item_pairs(alloc, items)?;
    first_coverages(alloc, &pairs)
}

/// The items with their coverages, as pairs.
fn item_pairs(alloc: Global, items: &[Item]) -> Result<Vec<(u32, u32)>, AllocError>
    ensures value { IfOk result (λ pairs. pairs.items ≡ map (λ row. (row.item_id, row.coverage_id)) items.now) }
{
    items
        .iter()
        .map(|row| (row.item_id, row.coverage_id))
        .collect(alloc)
}

/// What each number has in its first pair.
fn first_coverages(alloc: Global, pairs: &[(u32, u32)]) -> Result<HashMap<u32, u32>, AllocError>
    ensures value { IfOk result (λ found. (id : ℕ) → get nat_eq found id ≡ lookup (nat_eq id) pairs.now) }
{
    first_values(alloc, pairs)
}

/// The outputs with the coverages of their items.
fn output_pairs(
    alloc: Global,
    found: &HashMap<u32, u32>,
    outputs: &[FmXref],
) -> Result<Vec<(u32, Option<u32>)>, AllocError>
    ensures value { IfOk result (λ covered. covered.items ≡ map (λ row. (row.output_id, get nat_eq found.now row.agg_id)) outputs.now) }
{
    let mut covered = Vec::with_capacity(alloc, outputs.len())?;
    for row in outputs {
        covered.push((row.output_id, found.get(&row.agg_id).copied()))?;
    }
    Ok(covered)
}

/// The outputs with the coverages of their items.
fn covered_outputs(
    alloc: Global,
    items: &[Item],
    outputs: &[FmXref],
) -> Result<Vec<(u32, Option<u32>)>, AllocError>
    ensures value { IfOk result (λ covered. covered.items ≡ map (λ row. (row.output_id, coverage_of items.now row.agg_id)) outputs.now) }
{
    let found = item_coverages(alloc, items)?;
    output_pairs(alloc, &found, outputs)
}

/// The ids whose losses may come in, with their coverages.
pub(crate) fn covered_ids(
    alloc: Global,
    tables: &Tables,
    stage: u32,
) -> Result<Vec<(u32, Option<u32>)>, AllocError>
    ensures value { IfOk result (λ covered. covered.items ≡ covered_ids (rows_of tables.now) stage) }
{
    if stage == 0 {
        covered_items(alloc, &tables.items)
    } else {
        covered_outputs(alloc, &tables.items, &tables.fm_xref)
    }
}

/// An id with its coverage, where it has one, as a unit of level 0.
fn start_row(pair: &(u32, Option<u32>)) -> Option<SummaryUnit>
    ensures value { result ≡ start_row pair.now }
{
    let coverage = pair.1?;
    Some(SummaryUnit {
        set: 0,
        summary: pair.0,
        unit: coverage,
    })
}

/// The ids that have coverages, as units of level 0.
fn start_rows(alloc: Global, covered: &[(u32, Option<u32>)]) -> Result<Vec<SummaryUnit>, AllocError>
    ensures value { IfOk result (λ rows. rows.items ≡ filter_map start_row covered.now) }
{
    covered
        .iter()
        .filter_map(|pair| start_row(pair))
        .collect(alloc)
}

/// The unit of a level that the losses of a unit below go to, where they go to one, with the same coverage.
fn row_up(next: &UnitTable<u32>, level: u32, row: &SummaryUnit) -> Option<SummaryUnit>
    ensures value { result ≡ row_up (value_of next.now) level row.now }
{
    let unit = next.of(level, row.summary)?;
    Some(SummaryUnit {
        set: level,
        summary: unit,
        unit: row.unit,
    })
}

/// The units of a level that the losses of units below go to, with the same coverages.
fn rows_up(
    alloc: Global,
    next: &UnitTable<u32>,
    level: u32,
    rows: &[SummaryUnit],
) -> Result<Vec<SummaryUnit>, AllocError>
    ensures value { IfOk result (λ higher. higher.items ≡ filter_map (row_up (value_of next.now) level) rows.now) }
{
    rows.iter()
        .filter_map(|row| row_up(next, level, row))
        .collect(alloc)
}

/// The units that the losses of ids come to, with the coverages of the ids. They stand level by level, so that they are in the order
/// of their levels and units already, where ids and units are numbered alike.
fn climbs(
    alloc: Global,
    next: &UnitTable<u32>,
    top: u32,
    covered: &[(u32, Option<u32>)],
) -> Result<Vec<SummaryUnit>, AllocError>
    ensures value { IfOk result (λ rows. (test : SummaryUnit → Bool) → list_any test rows.items ≡ list_any test (flat_map (rows_for (value_of next.now) top) covered.now)) }
{
    let mut rows = Vec::with_capacity(alloc, covered.len().saturating_mul(top as usize))?;
    let mut here = start_rows(alloc, covered)?;
    for below in 0..top {
        let higher = rows_up(alloc, next, below + 1, &here)?;
        rows.extend_from_slice(&higher)?;
        here = higher;
    }
    Ok(rows)
}

/// Each coverage with itself.
fn own_pairs(alloc: Global, coverages: &[Coverage]) -> Result<Vec<UnitCoverage>, AllocError>
    ensures value { IfOk result (λ pairs. pairs.items ≡ map own_pair coverages.now) }
{
    coverages
        .iter()
        .map(|row| UnitCoverage {
            unit: row.coverage_id,
            coverage: row.coverage_id,
        })
        .collect(alloc)
}

/// What the distinct coverages beneath each unit of each level are worth, by level and unit, for ids with their coverages.
pub(crate) fn tivs(
    alloc: Global,
    next: &UnitTable<u32>,
    top: u32,
    covered: Vec<(u32, Option<u32>)>,
    coverages: &[Coverage],
) -> Result<UnitTable<u64>, AllocError>
    requires distinct { IsDistinct nat_eq (map (λ row. row.coverage_id) coverages.now) }
    requires ranges { All IsCoverage coverages.now }
    requires few { length coverages.now ≤ 100000 }
    ensures value { IfOk result (λ found. (key : ℕ × ℕ) → IsTotalOf (summary_covers (flat_map (rows_for (value_of next.now) top) covered.items) (map own_pair coverages.now) key) (tiv_of coverages.now) (unwrap_or (value_of found key) 0)) }
{
    let rows = climbs(alloc, next, top, &covered)?;
    drop(covered);
    let pairs = own_pairs(alloc, coverages)?;
    let values = coverage_tivs(alloc, coverages)?;
    let totals = exposure_list(alloc, rows, pairs, &values)?;
    UnitTable::new(alloc, &totals)
}
