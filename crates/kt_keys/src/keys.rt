//! The checks of keys that stand in an earlier row.
//! The rules: docs/CHECKS.md, "Keys", "Outputs of a layer".
ghost use Rattle.std.specs.Prelude.{◌≡◌, map, nat_eq, All, IfOk};
ghost use Rattle.kt_rec.specs.TableNames.{IsTableId};
ghost use Rattle.kt_rec.specs.Rows.{rows_of};
ghost use Rattle.kt_keys.specs.FirstRow.{repeated_at};
ghost use Rattle.kt_keys.specs.Keys.{same_pair, same_triple};
ghost use Rattle.kt_keys.specs.KeyChecks.{key_check, key_checks, key_row_in, output_check};
ghost use Rattle.kt_keys.specs.Refusals.{first_of};

use crate::keyed::{KeyedRow, keys_of};
use crate::naming::names_of;
use crate::need::{Need, Refusal};
use crate::rows::first_repeated;
use crate::stages::{base, has_base, policytc, profile, programme};
use kt_rec::{Table, TableId, Tables, load_order};
use std::alloc::{AllocError, Global};
use std::hash::Hash;

/// The first row, counted from 1, whose key stands in an earlier row. The error is want of memory.
fn repeated_row<K: Copy + Ord + Hash + Drop, R: KeyedRow<K>>(
    alloc: Global,
    rows: &[R],
) -> Result<Option<u64>, AllocError>
    ensures value { IfOk result (λ row. row ≡ repeated_at K.eq (map R.key_of rows.now)) }
{
    let keys = keys_of(alloc, rows)?;
    first_repeated(alloc, &keys)
}

/// That row, of rows whose keys are ids.
fn repeated_id<R: KeyedRow<u32>>(alloc: Global, rows: &[R]) -> Result<Option<u64>, AllocError>
    ensures value { IfOk result (λ row. row ≡ repeated_at nat_eq (map R.key_of rows.now)) }
{
    repeated_row(alloc, rows)
}

/// That row, of rows whose keys are pairs.
fn repeated_pair<R: KeyedRow<(u32, u32)>>(
    alloc: Global,
    rows: &[R],
) -> Result<Option<u64>, AllocError>
    ensures value { IfOk result (λ row. row ≡ repeated_at same_pair (map R.key_of rows.now)) }
{
    repeated_row(alloc, rows)
}

/// That row, of rows whose keys are triples.
fn repeated_triple<R: KeyedRow<(u32, u32, u32)>>(
    alloc: Global,
    rows: &[R],
) -> Result<Option<u64>, AllocError>
    ensures value { IfOk result (λ row. row ≡ repeated_at same_triple (map R.key_of rows.now)) }
{
    repeated_row(alloc, rows)
}

/// The first row of a table, counted from 1, whose key stands in an earlier row. The error is want of memory.
fn key_row(alloc: Global, tables: &Tables, id: TableId) -> Result<Option<u64>, AllocError>
    requires { IsTableId id }
    ensures value { IfOk result (λ row. row ≡ key_row_in (rows_of tables.now) id.stage id.table) }
{
    match id.table {
        Table::Events => repeated_id(alloc, tables.events.as_slice()),
        Table::Items => repeated_id(alloc, tables.items.as_slice()),
        Table::Coverages => repeated_id(alloc, tables.coverages.as_slice()),
        Table::FootprintIdx => repeated_id(alloc, tables.footprint_idx.as_slice()),
        Table::Vulnerability => repeated_triple(alloc, tables.vulnerability.as_slice()),
        Table::FmProgramme => repeated_pair(alloc, programme(tables, id.stage)),
        Table::FmPolicytc => repeated_triple(alloc, policytc(tables, id.stage)),
        Table::FmProfile => repeated_id(alloc, profile(tables, id.stage)),
        Table::FmXref => repeated_id(alloc, tables.fm_xref.as_slice()),
        Table::GulSummaryXref => repeated_pair(alloc, tables.gulsummaryxref.as_slice()),
        Table::FmSummaryXref => repeated_pair(alloc, tables.fmsummaryxref.as_slice()),
        Table::ReturnPeriods => repeated_id(alloc, tables.returnperiods.as_slice()),
        Table::Footprint | Table::DamageBinDict | Table::Random | Table::Occurrence => Ok(None),
    }
}

/// Check 2 of a table.
fn key_check(
    alloc: Global,
    tables: &Tables,
    need: &Need,
    id: TableId,
) -> Result<Option<Refusal>, AllocError>
    requires { IsTableId id }
    ensures value { IfOk result (λ found. found ≡ key_check (rows_of tables.now) need.now id) }
{
    let row = key_row(alloc, tables, id)?;
    Ok(Refusal::of(2, id, need.has(id.stage, id.table), row))
}

/// Check 2 of some tables, in order.
fn first_key(
    alloc: Global,
    tables: &Tables,
    need: &Need,
    ids: &[TableId],
) -> Result<Option<Refusal>, AllocError>
    requires { All IsTableId ids.now }
    ensures value { IfOk result (λ found. found ≡ first_of (map (key_check (rows_of tables.now) need.now) ids.now)) }
{
    let mut found = None;
    for id in ids {
        let next = key_check(alloc, tables, need, *id)?;
        found = found.or(next);
    }
    Ok(found)
}

/// Check 2: the key of a row stands in an earlier row of its table. The error is want of memory.
pub fn key_checks(
    alloc: Global,
    tables: &Tables,
    need: &Need,
) -> Result<Option<Refusal>, AllocError>
    ensures value { IfOk result (λ found. found ≡ key_checks (rows_of tables.now) need.now) }
{
    first_key(alloc, tables, need, &load_order())
}

/// Check 3: the unit and layer of an output stand in an earlier row. The error is want of memory.
pub fn output_check(
    alloc: Global,
    tables: &Tables,
    need: &Need,
) -> Result<Option<Refusal>, AllocError>
    ensures value { IfOk result (λ found. found ≡ output_check (rows_of tables.now) need.now) }
{
    let layers: Vec<(u32, u32)> = names_of(alloc, &tables.fm_xref)?;
    let row = first_repeated(alloc, &layers)?;
    Ok(Refusal::of(3, base(Table::FmXref), has_base(need, Table::FmXref), row))
}
