//! The exposures of the summaries of items and of outputs.
//! The rules: docs/CALCULATION.md, "Summary".
ghost use Rattle.std.specs.Prelude.{◌≡◌, ℕ, option_map, IfOk};
ghost use Rattle.std.specs.List.{filter_map};
ghost use Rattle.kt_rec.specs.Rows.{rows_of};
ghost use Rattle.kt_rec.specs.declared.perspective.Perspective.TheVariants as perspective;
ghost use Rattle.kt_keys.specs.UnitTable.{value_of};
ghost use Rattle.kt_keys.specs.Climbing.{climbed};
ghost use Rattle.kt_exposure.specs.Exposure.{unit_covers};
ghost use Rattle.kt_tables.specs.Lookups.{agg_of, item_summary_rows, output_summary_rows, lies_beneath, unit_has};
ghost use Rattle.kt_tables.specs.Kept.{AreTivs, AreAddable, AreExposures};

use crate::columns::parts_of;
use kt_checks::{climbed, next_units};
use kt_exposure::{SummaryUnit, UnitCoverage, exposures};
use kt_index::ByKey;
use kt_keys::{UnitTable, programme, top_level};
use kt_rec::{FmXref, Item, Tables};
use std::alloc::{AllocError, Global};
use std::collections::HashMap;

/// What an output is for, where the output is known.
fn agg_of(outputs: &ByKey<FmXref>, output: u32) -> Option<u32>
    ensures value { result ≡ agg_of outputs.now output }
{
    let row = outputs.of(u64::from(output)).first()?;
    Some(row.agg_id)
}

/// The unit of a summary of an output, where the output is known.
fn output_unit(outputs: &ByKey<FmXref>, row: &SummaryUnit) -> Option<SummaryUnit>
    ensures value { result ≡ option_map (λ unit. record { set = row.now.set; summary = row.now.summary; unit = unit }) (agg_of outputs.now row.now.unit) }
{
    let unit = agg_of(outputs, row.unit)?;
    Some(SummaryUnit {
        set: row.set,
        summary: row.summary,
        unit,
    })
}

/// The units of the summaries of outputs.
fn output_units(
    alloc: Global,
    outputs: &ByKey<FmXref>,
    rows: &[SummaryUnit],
) -> Result<Vec<SummaryUnit>, AllocError>
    ensures value { IfOk result (λ found. found.items ≡ filter_map (λ row. option_map (λ unit. record { set = row.set; summary = row.summary; unit = unit }) (agg_of outputs.now row.unit)) rows.now) }
{
    rows.iter()
        .filter_map(|row| output_unit(outputs, row))
        .collect(alloc)
}

/// The coverage of an item beneath the unit of the top level that its losses come to.
fn top_coverage(next: &UnitTable<u32>, top: u32, item: &Item) -> Option<UnitCoverage>
    ensures value { result ≡ option_map (λ unit. record { unit = unit; coverage = item.now.coverage_id }) (climbed (value_of next.now) top 1 item.now.item_id) }
{
    let unit = climbed(next, top, item.item_id)?;
    Some(UnitCoverage {
        unit,
        coverage: item.coverage_id,
    })
}

/// The coverages beneath the units of the top level.
fn top_coverages(
    alloc: Global,
    next: &UnitTable<u32>,
    top: u32,
    items: &[Item],
) -> Result<Vec<UnitCoverage>, AllocError>
    ensures value { IfOk result (λ pairs. pairs.items ≡ filter_map (λ row. option_map (λ unit. record { unit = unit; coverage = row.coverage_id }) (climbed (value_of next.now) top 1 row.item_id)) items.now) }
{
    items
        .iter()
        .filter_map(|item| top_coverage(next, top, item))
        .collect(alloc)
}

/// The coverages beneath the units of the top level of the base's programme.
fn beneath(alloc: Global, tables: &Tables) -> Result<Vec<UnitCoverage>, AllocError>
    ensures value { IfOk result (λ pairs. (unit : ℕ) (coverage : ℕ) → unit_covers pairs.items unit coverage ≡ lies_beneath (rows_of tables.now) unit coverage) }
{
    let programme = programme(tables, 0);
    let next = next_units(alloc, programme)?;
    top_coverages(alloc, &next, top_level(programme), &tables.items)
}

/// The coverages of what outputs are for: by rule 0 units of the top level, else items.
fn unit_coverages(
    alloc: Global,
    tables: &Tables,
    rule: u32,
) -> Result<Vec<UnitCoverage>, AllocError>
    ensures value { IfOk result (λ pairs. (unit : ℕ) (coverage : ℕ) → unit_covers pairs.items unit coverage ≡ unit_has (rows_of tables.now) rule unit coverage) }
{
    if rule == 0 {
        beneath(alloc, tables)
    } else {
        parts_of(alloc, &tables.items)
    }
}

/// The exposures of the summaries of items, which are these rows.
pub(crate) fn item_exposures(
    alloc: Global,
    tables: &Tables,
    rows: &[SummaryUnit],
    tivs: &UnitTable<u64>,
) -> Result<HashMap<(u32, u32), u64>, AllocError>
    requires addable { AreAddable (rows_of tables.now) }
    requires rows { rows.now ≡ item_summary_rows (rows_of tables.now) }
    requires tivs { AreTivs (rows_of tables.now) tivs.now }
    ensures value { IfOk result (λ found. (rule : ℕ) → AreExposures perspective.Gul (rows_of tables.now) rule found) }
{
    let pairs = parts_of(alloc, &tables.items)?;
    let rows = rows.to_vec(alloc)?;
    exposures(alloc, rows, pairs, tivs)
}

/// The exposures of the summaries of outputs, which are these rows.
pub(crate) fn output_exposures(
    alloc: Global,
    tables: &Tables,
    rule: u32,
    rows: &[SummaryUnit],
    tivs: &UnitTable<u64>,
) -> Result<HashMap<(u32, u32), u64>, AllocError>
    requires addable { AreAddable (rows_of tables.now) }
    requires rows { rows.now ≡ output_summary_rows (rows_of tables.now) }
    requires tivs { AreTivs (rows_of tables.now) tivs.now }
    ensures value { IfOk result (AreExposures perspective.Il (rows_of tables.now) rule) }
{
    let outputs = ByKey::new(alloc, &tables.fm_xref)?;
    let units = output_units(alloc, &outputs, rows)?;
    let coverages = unit_coverages(alloc, tables, rule)?;
    exposures(alloc, units, coverages, tivs)
}
