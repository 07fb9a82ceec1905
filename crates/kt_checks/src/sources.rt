//! The check of what a programme takes losses from, over the base and the stages.
//! The rule: docs/CHECKS.md, "Where losses come from".
ghost use Rattle.std.specs.Prelude.{◌≡◌, ◌<◌, ℕ, map, nat_eq, IfOk};
ghost use Rattle.std.specs.List.{list_any};
ghost use Rattle.kt_rec.specs.Rows.{rows_of};
ghost use Rattle.kt_keys.specs.FirstRow.{first_where};
ghost use Rattle.kt_keys.specs.Keys.{programme_of};
ghost use Rattle.kt_keys.specs.Refusals.{over_stages};
ghost use Rattle.kt_keys.specs.UnitTable.{has_id, has_unit};
ghost use Rattle.kt_checks.specs.ProgrammeChecks.{inputs_of, has_sources, is_rootless, rootless_at, source_check};

use kt_keys::{
    Need, Refusal, STAGES, UnitTable, has_base, has_financial, keys_of, programme, target_units,
};
use kt_rec::{FmProgramme, Table, TableId, Tables};
use std::alloc::{AllocError, Global};

/// Whether a row takes, at level 1, from what is no input, or above it from no unit of the level below.
fn is_rootless(inputs: &UnitTable<u32>, units: &UnitTable<u32>, row: &FmProgramme) -> bool
    ensures value { result ≡ is_rootless (has_id inputs.now) (has_unit units.now) row.now }
{
    if row.level_id == 1 {
        !inputs.has(0, row.from_agg_id)
    } else {
        !units.has(row.level_id.saturating_sub(1), row.from_agg_id)
    }
}

/// The first row that takes losses from what has none.
fn first_rootless(
    inputs: &UnitTable<u32>,
    units: &UnitTable<u32>,
    rows: &[FmProgramme],
) -> Option<u64>
    ensures value { result ≡ first_where (is_rootless (has_id inputs.now) (has_unit units.now)) rows.now }
{
    for (index, row) in rows.iter().enumerate() {
        if is_rootless(inputs, units, row) {
            return Some(index as u64 + 1);
        }
    }
    None
}

/// Ids as units of level 0.
fn id_units(alloc: Global, ids: &[u32]) -> Result<Vec<((u32, u32), u32)>, AllocError>
    ensures value { IfOk result (λ units. units.items ≡ map (λ id. ((0, id), id)) ids.now) }
{
    ids.iter().map(|id| ((0, *id), *id)).collect(alloc)
}

/// The ids of inputs, to be looked up.
fn input_units(alloc: Global, inputs: &[u32]) -> Result<UnitTable<u32>, AllocError>
    ensures value { IfOk result (λ known. (id : ℕ) → has_id known id ≡ list_any (nat_eq id) inputs.now) }
{
    let units = id_units(alloc, inputs)?;
    let known = UnitTable::new(alloc, &units)?;
    Ok(known)
}

/// The first row of a programme that takes losses from what has none.
fn rootless_at(
    alloc: Global,
    inputs: &[u32],
    programme: &[FmProgramme],
) -> Result<Option<u64>, AllocError>
    ensures value { IfOk result (λ row. row ≡ rootless_at inputs.now programme.now) }
{
    let known = input_units(alloc, inputs)?;
    let units = target_units(alloc, programme)?;
    Ok(first_rootless(&known, &units, programme))
}

/// What the losses of a programme are of: items for the base, and the base's outputs for a stage.
fn inputs_of(alloc: Global, tables: &Tables, stage: u32) -> Result<Vec<u32>, AllocError>
    ensures value { IfOk result (λ inputs. inputs.items ≡ inputs_of (rows_of tables.now) stage) }
{
    if stage == 0 {
        keys_of(alloc, &tables.items)
    } else {
        keys_of(alloc, &tables.fm_xref)
    }
}

/// The first row of the programme of the base, at 0, or of a stage that takes losses from what has none. A programme without rows
/// takes no memory.
fn first_source(alloc: Global, tables: &Tables, stage: u32) -> Result<Option<u64>, AllocError>
    requires { stage < 10 }
    ensures value { IfOk result (λ row. row ≡ rootless_at (inputs_of (rows_of tables.now) stage) (programme_of (rows_of tables.now) stage)) }
{
    let programme = programme(tables, stage);
    if programme.is_empty() {
        return Ok(None);
    }
    let inputs = inputs_of(alloc, tables, stage)?;
    rootless_at(alloc, &inputs, programme)
}

/// Whether the programme is loaded, and the table that its losses are of.
fn has_sources(need: &Need, stage: u32) -> bool
    requires { stage < 10 }
    ensures value { result ≡ has_sources need.now stage }
{
    let inputs = if stage == 0 {
        Table::Items
    } else {
        Table::FmXref
    };
    has_financial(need, stage, Table::FmProgramme) && has_base(need, inputs)
}

/// Check 11 of the base, at 0, or of a stage: a programme takes losses from what has none.
fn source_check(
    alloc: Global,
    tables: &Tables,
    need: &Need,
    stage: u32,
) -> Result<Option<Refusal>, AllocError>
    requires { stage < 10 }
    ensures value { IfOk result (λ found. found ≡ source_check (rows_of tables.now) need.now stage) }
{
    let row = first_source(alloc, tables, stage)?;
    let made = has_sources(need, stage);
    Ok(Refusal::of(
        11,
        TableId {
            stage,
            table: Table::FmProgramme,
        },
        made,
        row,
    ))
}

/// Check 11: a programme takes losses from what has none.
pub(crate) fn source_checks(
    alloc: Global,
    tables: &Tables,
    need: &Need,
) -> Result<Option<Refusal>, AllocError>
    ensures value { IfOk result (λ found. found ≡ over_stages (source_check (rows_of tables.now) need.now) 10) }
{
    let mut found = None;
    for stage in 0..STAGES {
        let next = source_check(alloc, tables, need, stage)?;
        found = found.or(next);
    }
    Ok(found)
}
