//! The checks of what a table names but another table lacks.
//! The rules: docs/CHECKS.md, "Coverages of items", "Damage bins of vulnerabilities", "Profiles of terms", "What
//! outputs are for", "Items and outputs of summaries".
ghost use Rattle.std.specs.Prelude.{◌≡◌, ◌<◌, ◌&&◌, map, nat_eq, IfOk};
ghost use Rattle.kt_rec.specs.declared.table.Table.TheVariants.{FmPolicytc, FmProfile};
ghost use Rattle.kt_rec.specs.Rows.{rows_of};
ghost use Rattle.kt_keys.specs.FirstRow.{unknown_at};
ghost use Rattle.kt_keys.specs.Refusals.{is_loaded, over_stages, refusal};
ghost use Rattle.kt_keys.specs.NameChecks.{coverage_check, damage_check, profile_check, output_units, has_units, output_unit_check, item_summary_check, output_summary_check, summary_checks};

use crate::keyed::{KeyedRow, keys_of};
use crate::naming::{Naming, names_of};
use crate::need::{Need, Refusal};
use crate::rows::first_unknown;
use crate::stages::{STAGES, base, has_both, has_financial, policytc, profile};
use crate::units::top_targets;
use kt_rec::{Table, TableId, Tables};
use std::alloc::{AllocError, Global};

/// The check with a number of rows that name what another table lacks.
fn name_check<K: KeyedRow<u32>, R: Naming<u32>>(
    alloc: Global,
    number: u32,
    table: TableId,
    made: bool,
    known: &[K],
    rows: &[R],
) -> Result<Option<Refusal>, AllocError>
    ensures value { IfOk result (λ found. found ≡ refusal number table made (unknown_at nat_eq (map K.key_of known.now) (map R.named_of rows.now))) }
{
    let known = keys_of(alloc, known)?;
    let named: Vec<u32> = names_of(alloc, rows)?;
    let row = first_unknown(alloc, &known, &named)?;
    Ok(Refusal::of(number, table, made, row))
}

/// Check 4: the coverage of an item is not in the coverages. The error is want of memory.
pub fn coverage_check(
    alloc: Global,
    tables: &Tables,
    need: &Need,
) -> Result<Option<Refusal>, AllocError>
    ensures value { IfOk result (λ found. found ≡ coverage_check (rows_of tables.now) need.now) }
{
    let made = has_both(need, Table::Items, Table::Coverages);
    name_check(
        alloc,
        4,
        base(Table::Items),
        made,
        &tables.coverages,
        &tables.items,
    )
}

/// Check 7: the damage bin of a vulnerability is not in the dictionary. The error is want of memory.
pub fn damage_check(
    alloc: Global,
    tables: &Tables,
    need: &Need,
) -> Result<Option<Refusal>, AllocError>
    ensures value { IfOk result (λ found. found ≡ damage_check (rows_of tables.now) need.now) }
{
    let made = has_both(need, Table::Vulnerability, Table::DamageBinDict);
    let bins = &tables.damage_bin_dict;
    name_check(
        alloc,
        7,
        base(Table::Vulnerability),
        made,
        bins,
        &tables.vulnerability,
    )
}

/// Whether the policy terms and the profiles of the base, at 0, or of a stage are loaded.
fn has_profiles(need: &Need, stage: u32) -> bool
    requires { stage < 10 }
    ensures value { result ≡ (is_loaded need.now stage FmPolicytc && is_loaded need.now stage FmProfile) }
{
    has_financial(need, stage, Table::FmPolicytc) && has_financial(need, stage, Table::FmProfile)
}

/// Check 14 of the base, at 0, or of a stage: the profile of policy terms is not in the profiles.
fn profile_check(
    alloc: Global,
    tables: &Tables,
    need: &Need,
    stage: u32,
) -> Result<Option<Refusal>, AllocError>
    requires { stage < 10 }
    ensures value { IfOk result (λ found. found ≡ profile_check (rows_of tables.now) need.now stage) }
{
    let made = has_profiles(need, stage);
    let terms = TableId {
        stage,
        table: Table::FmPolicytc,
    };
    name_check(
        alloc,
        14,
        terms,
        made,
        profile(tables, stage),
        policytc(tables, stage),
    )
}

/// Check 14: the profile of policy terms is not in the profiles. The error is want of memory.
pub fn profile_checks(
    alloc: Global,
    tables: &Tables,
    need: &Need,
) -> Result<Option<Refusal>, AllocError>
    ensures value { IfOk result (λ found. found ≡ over_stages (profile_check (rows_of tables.now) need.now) 10) }
{
    let mut found = None;
    for stage in 0..STAGES {
        let next = profile_check(alloc, tables, need, stage)?;
        found = found.or(next);
    }
    Ok(found)
}

/// The units that an output may be for: by rule 0 those of the top level, by the others the items.
fn output_units(alloc: Global, tables: &Tables, rule: u32) -> Result<Vec<u32>, AllocError>
    ensures value { IfOk result (λ units. units.items ≡ output_units (rows_of tables.now) rule) }
{
    if rule == 0 {
        top_targets(alloc, tables)
    } else {
        keys_of(alloc, &tables.items)
    }
}

/// Check 15: an output is for no item, or by rule 0 for no unit of the top level. The error is want of memory.
pub fn output_unit_check(
    alloc: Global,
    tables: &Tables,
    need: &Need,
) -> Result<Option<Refusal>, AllocError>
    ensures value { IfOk result (λ found. found ≡ output_unit_check (rows_of tables.now) need.now) }
{
    let known = output_units(alloc, tables, need.rule)?;
    let named: Vec<u32> = names_of(alloc, &tables.fm_xref)?;
    let row = first_unknown(alloc, &known, &named)?;
    Ok(Refusal::of(15, base(Table::FmXref), has_units(need), row))
}

/// Whether the tables are loaded that have the outputs and what they may be for.
fn has_units(need: &Need) -> bool
    ensures value { result ≡ has_units need.now }
{
    has_both(
        need,
        Table::FmXref,
        if need.rule == 0 {
            Table::FmProgramme
        } else {
            Table::Items
        },
    )
}

/// Check 17 of items: a summary is of no item.
fn item_summary_check(
    alloc: Global,
    tables: &Tables,
    need: &Need,
) -> Result<Option<Refusal>, AllocError>
    ensures value { IfOk result (λ found. found ≡ item_summary_check (rows_of tables.now) need.now) }
{
    let made = has_both(need, Table::GulSummaryXref, Table::Items);
    name_check(
        alloc,
        17,
        base(Table::GulSummaryXref),
        made,
        &tables.items,
        &tables.gulsummaryxref,
    )
}

/// Check 17 of outputs: a summary is of no output.
fn output_summary_check(
    alloc: Global,
    tables: &Tables,
    need: &Need,
) -> Result<Option<Refusal>, AllocError>
    ensures value { IfOk result (λ found. found ≡ output_summary_check (rows_of tables.now) need.now) }
{
    let made = has_both(need, Table::FmSummaryXref, Table::FmXref);
    name_check(
        alloc,
        17,
        base(Table::FmSummaryXref),
        made,
        &tables.fm_xref,
        &tables.fmsummaryxref,
    )
}

/// Check 17: a summary is of no item, or of no output. The error is want of memory.
pub fn summary_checks(
    alloc: Global,
    tables: &Tables,
    need: &Need,
) -> Result<Option<Refusal>, AllocError>
    ensures value { IfOk result (λ found. found ≡ summary_checks (rows_of tables.now) need.now) }
{
    Ok(item_summary_check(alloc, tables, need)?.or(output_summary_check(alloc, tables, need)?))
}
