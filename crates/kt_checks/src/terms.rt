//! The check of the place of policy terms in a programme, over the base and the stages.
//! The rule: docs/CHECKS.md, "The place of terms".
ghost use Rattle.std.specs.Prelude.{◌≡◌, ◌<◌, ◌&&◌, IfOk};
ghost use Rattle.kt_rec.specs.declared.table.Table.TheVariants.{FmPolicytc as ThePolicytc, FmProgramme as TheProgramme};
ghost use Rattle.kt_rec.specs.Rows.{rows_of};
ghost use Rattle.kt_keys.specs.FirstRow.{first_where};
ghost use Rattle.kt_keys.specs.Refusals.{is_loaded, over_stages};
ghost use Rattle.kt_keys.specs.UnitTable.{has_unit};
ghost use Rattle.kt_checks.specs.ProgrammeChecks.{is_unplaced, unplaced_at, terms_check};

use kt_keys::{
    Need, Refusal, STAGES, UnitTable, has_financial, policytc, programme, target_units, top_level,
};
use kt_rec::{FmPolicytc, FmProgramme, Table, TableId, Tables};
use std::alloc::{AllocError, Global};

/// Whether terms are above the top level, are for no unit of their level, or have a layer other than 1 below the top level.
fn is_unplaced(top: u32, units: &UnitTable<u32>, row: &FmPolicytc) -> bool
    ensures value { result ≡ is_unplaced top (has_unit units.now) row.now }
{
    row.level_id > top
        || !units.has(row.level_id, row.agg_id)
        || (row.level_id < top && row.layer_id != 1)
}

/// The first terms that have no place in a programme.
fn first_unplaced(top: u32, units: &UnitTable<u32>, rows: &[FmPolicytc]) -> Option<u64>
    ensures value { result ≡ first_where (is_unplaced top (has_unit units.now)) rows.now }
{
    for (index, row) in rows.iter().enumerate() {
        if is_unplaced(top, units, row) {
            return Some(index as u64 + 1);
        }
    }
    None
}

/// The first terms that have no place in a programme.
fn unplaced_at(
    alloc: Global,
    programme: &[FmProgramme],
    policytc: &[FmPolicytc],
) -> Result<Option<u64>, AllocError>
    ensures value { IfOk result (λ row. row ≡ unplaced_at programme.now policytc.now) }
{
    let units = target_units(alloc, programme)?;
    Ok(first_unplaced(top_level(programme), &units, policytc))
}

/// Whether the programme and the policy terms of the base, at 0, or of a stage are loaded.
fn has_terms(need: &Need, stage: u32) -> bool
    requires { stage < 10 }
    ensures value { result ≡ (is_loaded need.now stage ThePolicytc && is_loaded need.now stage TheProgramme) }
{
    has_financial(need, stage, Table::FmPolicytc) && has_financial(need, stage, Table::FmProgramme)
}

/// Check 13 of the base, at 0, or of a stage: policy terms have no place in the programme.
fn terms_check(
    alloc: Global,
    tables: &Tables,
    need: &Need,
    stage: u32,
) -> Result<Option<Refusal>, AllocError>
    requires { stage < 10 }
    ensures value { IfOk result (λ found. found ≡ terms_check (rows_of tables.now) need.now stage) }
{
    let row = unplaced_at(alloc, programme(tables, stage), policytc(tables, stage))?;
    let made = has_terms(need, stage);
    Ok(Refusal::of(
        13,
        TableId {
            stage,
            table: Table::FmPolicytc,
        },
        made,
        row,
    ))
}

/// Check 13: policy terms have no place in the programme.
pub(crate) fn terms_checks(
    alloc: Global,
    tables: &Tables,
    need: &Need,
) -> Result<Option<Refusal>, AllocError>
    ensures value { IfOk result (λ found. found ≡ over_stages (terms_check (rows_of tables.now) need.now) 10) }
{
    let mut found = None;
    for stage in 0..STAGES {
        let next = terms_check(alloc, tables, need, stage)?;
        found = found.or(next);
    }
    Ok(found)
}
