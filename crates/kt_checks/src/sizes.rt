//! The checks of the sizes of tables.
//! The rules: docs/CHECKS.md, "Sizes", "Empty tables", "Distributions of an event".
ghost use Rattle.std.specs.Prelude.{◌≡◌, ◌*◌, ◌<◌, ◌^◌, map, All};
ghost use Rattle.kt_rec.specs.Rows.{rows_of};
ghost use Rattle.kt_rec.specs.TableNames.{IsTableId};
ghost use Rattle.kt_checks.specs.TableChecks.{row_past, row_limit, limit_check, limit_checks, none_at, empty_checks, rows_above, damage_size_check, empty_programme};
ghost use Rattle.kt_keys.specs.Refusals.{first_of, over_stages};

use kt_keys::{Need, Refusal, STAGES, base, has_base, has_both, has_financial, programme};
use kt_rec::{Table, TableId, Tables, load_order};

/// The row behind the last that a table may have, where there is one.
fn row_past(most: u64, rows: usize) -> Option<u64>
    requires { most < 2 ^ 63 }
    ensures value { result ≡ row_past most rows }
{
    if rows as u64 > most {
        Some(most + 1)
    } else {
        None
    }
}

/// The most rows that a table may have.
fn most_rows(table: Table) -> u64
    ensures value { result ≡ row_limit table }
    ensures less { result < 2 ^ 63 }
{
    match table {
        Table::Events => 1_000_000,
        Table::Items => 100_000,
        Table::Coverages => 100_000,
        Table::Footprint => 0,
        Table::FootprintIdx => 1_000_000,
        Table::Vulnerability => 10_000_000,
        Table::DamageBinDict => 1_000,
        Table::Random => 10_000_000,
        Table::FmProgramme => 1_200_000,
        Table::FmPolicytc => 1_200_000,
        Table::FmProfile => 1_000_000,
        Table::FmXref => 100_000,
        Table::GulSummaryXref => 900_000,
        Table::FmSummaryXref => 900_000,
        Table::Occurrence => 1_000_000,
        Table::ReturnPeriods => 1_000,
    }
}

/// Check 1 of a table.
fn limit_check(tables: &Tables, need: &Need, id: TableId) -> Option<Refusal>
    requires { IsTableId id }
    ensures value { result ≡ limit_check (rows_of tables.now) need.now id }
{
    let row = row_past(most_rows(id.table), tables.count(id));
    Refusal::of(1, id, need.has(id.stage, id.table), row)
}

/// Check 1 of some tables, in order.
fn first_limit(tables: &Tables, need: &Need, ids: &[TableId]) -> Option<Refusal>
    requires { All IsTableId ids.now }
    ensures value { result ≡ first_of (map (limit_check (rows_of tables.now) need.now) ids.now) }
{
    let mut found = None;
    for id in ids {
        found = found.or(limit_check(tables, need, *id));
    }
    found
}

/// Check 1: a table has more rows than its limit.
pub(crate) fn limit_checks(tables: &Tables, need: &Need) -> Option<Refusal>
    ensures value { result ≡ limit_checks (rows_of tables.now) need.now }
{
    first_limit(tables, need, &load_order())
}

/// Row 0, where a table has no row.
fn none_at(rows: usize) -> Option<u64>
    ensures value { result ≡ none_at rows }
{
    if rows == 0 { Some(0) } else { None }
}

/// Check 10: there is no random number, or a programme has no row.
pub(crate) fn empty_checks(tables: &Tables, need: &Need) -> Option<Refusal>
    ensures value { result ≡ empty_checks (rows_of tables.now) need.now }
{
    Refusal::of(
        10,
        base(Table::Random),
        has_base(need, Table::Random),
        none_at(tables.random.len()),
    )
    .or(empty_programmes(tables, need))
}

/// Check 10 of the programme of the base, at 0, or of a stage.
fn empty_programme(tables: &Tables, need: &Need, stage: u32) -> Option<Refusal>
    requires { stage < 10 }
    ensures value { result ≡ empty_programme (rows_of tables.now) need.now stage }
{
    let table = TableId {
        stage,
        table: Table::FmProgramme,
    };
    let made = has_financial(need, stage, Table::FmProgramme);
    Refusal::of(10, table, made, none_at(programme(tables, stage).len()))
}

/// Check 10 of the programmes of the base and of the stages.
fn empty_programmes(tables: &Tables, need: &Need) -> Option<Refusal>
    ensures value { result ≡ over_stages (empty_programme (rows_of tables.now) need.now) 10 }
{
    let mut found = None;
    for stage in 0..STAGES {
        found = found.or(empty_programme(tables, need, stage));
    }
    found
}

/// The number of rows, where they times what each brings are above the most.
pub(crate) fn rows_above(most: u64, rows: usize, each: u64) -> Option<u64>
    requires { each < 2 ^ 63 }
    ensures value { result ≡ rows_above most rows each }
{
    if rows as u128 * u128::from(each) > u128::from(most) {
        Some(rows as u64)
    } else {
        None
    }
}

/// Check 21: the damage bins times the items are above 2,000,000.
pub(crate) fn damage_size_check(tables: &Tables, need: &Need) -> Option<Refusal>
    ensures value { result ≡ damage_size_check (rows_of tables.now) need.now }
{
    let row = rows_above(
        2_000_000,
        tables.damage_bin_dict.len(),
        tables.items.len() as u64,
    );
    let made = has_both(need, Table::DamageBinDict, Table::Items);
    Refusal::of(21, base(Table::DamageBinDict), made, row)
}
