//! The check of where a programme's losses go, over the base and the stages.
//! The rule: docs/CHECKS.md, "Where losses go".
ghost use Rattle.std.specs.Prelude.{◌≡◌, ◌<◌, IfOk};
ghost use Rattle.kt_rec.specs.Rows.{rows_of};
ghost use Rattle.kt_keys.specs.FirstRow.{first_where};
ghost use Rattle.kt_keys.specs.Refusals.{over_stages};
ghost use Rattle.kt_keys.specs.UnitTable.{has_unit};
ghost use Rattle.kt_checks.specs.ProgrammeChecks.{is_dead_end, dead_end_at, target_check};

use kt_keys::{Need, Refusal, STAGES, UnitTable, has_financial, next_units, programme, top_level};
use kt_rec::{FmProgramme, Table, TableId, Tables};
use std::alloc::{AllocError, Global};

/// Whether a row below the top level puts losses into a unit that the next level does not take from.
fn is_dead_end(top: u32, sources: &UnitTable<u32>, row: &FmProgramme) -> bool
    ensures value { result ≡ is_dead_end top (has_unit sources.now) row.now }
{
    row.level_id < top && !sources.has(row.level_id + 1, row.to_agg_id)
}

/// The first row whose losses go no further, below the top level.
fn first_dead_end(top: u32, sources: &UnitTable<u32>, rows: &[FmProgramme]) -> Option<u64>
    ensures value { result ≡ first_where (is_dead_end top (has_unit sources.now)) rows.now }
{
    for (index, row) in rows.iter().enumerate() {
        if is_dead_end(top, sources, row) {
            return Some(index as u64 + 1);
        }
    }
    None
}

/// The first row of a programme whose losses go no further, below the top level.
fn dead_end_at(alloc: Global, programme: &[FmProgramme]) -> Result<Option<u64>, AllocError>
    ensures value { IfOk result (λ row. row ≡ dead_end_at programme.now) }
{
    let sources = next_units(alloc, programme)?;
    Ok(first_dead_end(top_level(programme), &sources, programme))
}

/// Check 12 of the base, at 0, or of a stage: a programme's losses go no further, below its top level.
fn target_check(
    alloc: Global,
    tables: &Tables,
    need: &Need,
    stage: u32,
) -> Result<Option<Refusal>, AllocError>
    requires { stage < 10 }
    ensures value { IfOk result (λ found. found ≡ target_check (rows_of tables.now) need.now stage) }
{
    let row = dead_end_at(alloc, programme(tables, stage))?;
    let made = has_financial(need, stage, Table::FmProgramme);
    Ok(Refusal::of(
        12,
        TableId {
            stage,
            table: Table::FmProgramme,
        },
        made,
        row,
    ))
}

/// Check 12: a programme's losses go no further, below its top level.
pub(crate) fn target_checks(
    alloc: Global,
    tables: &Tables,
    need: &Need,
) -> Result<Option<Refusal>, AllocError>
    ensures value { IfOk result (λ found. found ≡ over_stages (target_check (rows_of tables.now) need.now) 10) }
{
    let mut found = None;
    for stage in 0..STAGES {
        let next = target_check(alloc, tables, need, stage)?;
        found = found.or(next);
    }
    Ok(found)
}
