//! The checks of values: of insured values, damage bins, probabilities and periods.
//! The rules: docs/CHECKS.md, "Insured values", "Damage bins", "Probabilities of vulnerabilities", "Periods".
ghost use Rattle.std.specs.Prelude.{◌≡◌, ℕ, map, nat_eq, nat_lt, unwrap_or, IfOk};
ghost use Rattle.std.specs.Map.{lookup};
ghost use Rattle.kt_rec.specs.Rows.{rows_of};
ghost use Rattle.kt_keys.specs.Keys.{same_pair};
ghost use Rattle.kt_keys.specs.UnitTable.{value_of};
ghost use Rattle.kt_keys.specs.FirstRow.{first_where, above_at};
ghost use Rattle.kt_checks.specs.TableChecks.{sum_above_at, value_above_at, value_check, bad_bin_at, bin_check, probability_check, period_check};

use kt_keys::{Need, Refusal, UnitTable, base, first_above, has_base, has_both};
use kt_rec::{Coverage, DamageBin, Item, Occurrence, Table, Tables, Vulnerability};
use std::alloc::{AllocError, Global};

/// The insured value of each coverage in cents, as a unit of level 0: that of its first row. The error is want of memory.
pub fn tivs(alloc: Global, coverages: &[Coverage]) -> Result<UnitTable<u64>, AllocError>
    ensures value { IfOk result (λ tivs. (coverage : ℕ) → value_of tivs (0, coverage) ≡ lookup (nat_eq coverage) (map (λ row. (row.coverage_id, row.tiv)) coverages.now)) }
{
    let units = coverage_units(alloc, coverages)?;
    let values = UnitTable::new(alloc, &units)?;
    Ok(values)
}

/// The first item at which the insured values so far add to more than 10^14 cents.
fn value_above(
    alloc: Global,
    coverages: &[Coverage],
    items: &[Item],
) -> Result<Option<u64>, AllocError>
    ensures value { IfOk result (λ row. row ≡ value_above_at coverages.now items.now) }
{
    let values = tivs(alloc, coverages)?;
    Ok(sum_above(&values, items))
}

/// The coverages with their values, as units of level 0.
fn coverage_units(
    alloc: Global,
    coverages: &[Coverage],
) -> Result<Vec<((u32, u32), u64)>, AllocError>
    ensures value { IfOk result (λ units. units.items ≡ map (λ row. ((0, row.coverage_id), row.tiv)) coverages.now) }
{
    coverages
        .iter()
        .map(|row| ((0, row.coverage_id), row.tiv))
        .collect(alloc)
}

/// The first item at which the values of the coverages so far, one for each item, add to more than 10^14 cents.
fn sum_above(values: &UnitTable<u64>, items: &[Item]) -> Option<u64>
    ensures value { result ≡ sum_above_at (λ row. unwrap_or (value_of values.now (0, row.coverage_id)) 0) items.now }
{
    let most = 100_000_000_000_000u64;
    let mut sum = 0u64;
    for (index, item) in items.iter().enumerate() {
        let value = values.of(0, item.coverage_id).unwrap_or(0);
        if value > most - sum {
            return Some(index as u64 + 1);
        }
        sum += value;
    }
    None
}

/// Check 5: the insured values of the items up to a row add to more than 10^14 cents.
pub(crate) fn value_check(
    alloc: Global,
    tables: &Tables,
    need: &Need,
) -> Result<Option<Refusal>, AllocError>
    ensures value { IfOk result (λ found. found ≡ value_check (rows_of tables.now) need.now) }
{
    let row = value_above(alloc, &tables.coverages, &tables.items)?;
    let made = has_both(need, Table::Items, Table::Coverages);
    Ok(Refusal::of(5, base(Table::Items), made, row))
}

/// The first damage bin whose index is not its row's number, or which begins above its end.
fn bad_bin(bins: &[DamageBin]) -> Option<u64>
    ensures value { result ≡ bad_bin_at bins.now }
{
    for (index, bin) in bins.iter().enumerate() {
        let row = index as u64 + 1;
        if u64::from(bin.bin_index) != row || bin.bin_from > bin.bin_to {
            return Some(row);
        }
    }
    None
}

/// Check 6: a damage bin is out of order or begins above its end.
pub(crate) fn bin_check(tables: &Tables, need: &Need) -> Option<Refusal>
    ensures value { result ≡ bin_check (rows_of tables.now) need.now }
{
    let row = bad_bin(&tables.damage_bin_dict);
    Refusal::of(
        6,
        base(Table::DamageBinDict),
        has_base(need, Table::DamageBinDict),
        row,
    )
}

/// The probability of each row, with its vulnerability and intensity.
fn probabilities(
    alloc: Global,
    rows: &[Vulnerability],
) -> Result<Vec<((u32, u32), u64)>, AllocError>
    ensures value { IfOk result (λ parts. parts.items ≡ map (λ row. ((row.vulnerability_id, row.intensity_bin_id), row.prob)) rows.now) }
{
    rows.iter()
        .map(|row| {
            let pair = (row.vulnerability_id, row.intensity_bin_id);
            (pair, u64::from(row.prob))
        })
        .collect(alloc)
}

/// The first row at which the probabilities of its pair so far add to more than 1,001,000 ppm.
fn probability_above(alloc: Global, parts: &[((u32, u32), u64)]) -> Result<Option<u64>, AllocError>
    ensures value { IfOk result (λ row. row ≡ above_at same_pair 1001000 parts.now) }
{
    first_above(alloc, 1_001_000, parts)
}

/// Check 8: the probabilities of a vulnerability at an intensity add to more than 1,001,000 ppm up to a row.
pub(crate) fn probability_check(
    alloc: Global,
    tables: &Tables,
    need: &Need,
) -> Result<Option<Refusal>, AllocError>
    ensures value { IfOk result (λ found. found ≡ probability_check (rows_of tables.now) need.now) }
{
    let parts = probabilities(alloc, &tables.vulnerability)?;
    let row = probability_above(alloc, &parts)?;
    Ok(Refusal::of(
        8,
        base(Table::Vulnerability),
        has_base(need, Table::Vulnerability),
        row,
    ))
}

/// The first occurrence in a period above the number of periods.
fn first_late(periods: u32, rows: &[Occurrence]) -> Option<u64>
    ensures value { result ≡ first_where (λ row. nat_lt periods row.period_no) rows.now }
{
    for (index, row) in rows.iter().enumerate() {
        if row.period_no > periods {
            return Some(index as u64 + 1);
        }
    }
    None
}

/// Check 20: a period is above the number of periods.
pub(crate) fn period_check(tables: &Tables, need: &Need) -> Option<Refusal>
    ensures value { result ≡ period_check (rows_of tables.now) need.now }
{
    let row = first_late(tables.periods, &tables.occurrence);
    Refusal::of(
        20,
        base(Table::Occurrence),
        has_base(need, Table::Occurrence),
        row,
    )
}
