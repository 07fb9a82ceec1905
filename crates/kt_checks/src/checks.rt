//! All checks in their order, and the first refusal.
//! The rule: docs/CHECKS.md, "Order".
ghost use Rattle.std.specs.Prelude.{◌≡◌, ◌⊎◌, IfOk};
ghost use Rattle.kt_rec.specs.Rows.{rows_of};
ghost use Rattle.kt_keys.specs.Refusals.{first_of};
ghost use Rattle.kt_checks.specs.SummaryChecks.{CountsSummaries, sample_checks, summary_size_check};
ghost use Rattle.kt_checks.specs.Checks.{table_checks, programme_checks, known_samples, size_checks, first_refusal, samples_refusal, answer_of};

use crate::outputs::missing_output_check;
use crate::places::place_check;
use crate::samples::{SummaryCounts, sample_checks, summary_counts, summary_size_check};
use crate::sizes::{damage_size_check, empty_checks, limit_checks};
use crate::sources::source_checks;
use crate::targets::target_checks;
use crate::terms::terms_checks;
use crate::values::{bin_check, period_check, probability_check, value_check};
use kt_keys::{
    CheckStop, Need, Refusal, coverage_check, damage_check, key_checks, output_check,
    output_unit_check, profile_checks, summary_checks,
};
use kt_rec::Tables;
use std::alloc::{AllocError, Global};

/// The checks 1 to 10.
#[tactic(auto, unfolding(crate::specs::Checks::table_checks))]
fn table_checks(alloc: Global, tables: &Tables, need: &Need) -> Result<Option<Refusal>, AllocError>
    ensures value { IfOk result (λ found. found ≡ first_of (table_checks (rows_of tables.now) need.now)) }
{
    Ok(
        limit_checks(tables, need)
            .or(key_checks(alloc, tables, need)?)
            .or(output_check(alloc, tables, need)?)
            .or(coverage_check(alloc, tables, need)?)
            .or(value_check(alloc, tables, need)?)
            .or(bin_check(tables, need))
            .or(damage_check(alloc, tables, need)?)
            .or(probability_check(alloc, tables, need)?)
            .or(place_check(tables, need))
            .or(empty_checks(tables, need)),
    )
}

/// The checks 11 to 16.
#[tactic(auto, unfolding(crate::specs::Checks::programme_checks))]
fn programme_checks(
    alloc: Global,
    tables: &Tables,
    need: &Need,
) -> Result<Option<Refusal>, AllocError>
    ensures value { IfOk result (λ found. found ≡ first_of (programme_checks (rows_of tables.now) need.now)) }
{
    Ok(
        source_checks(alloc, tables, need)?
            .or(target_checks(alloc, tables, need)?)
            .or(terms_checks(alloc, tables, need)?)
            .or(profile_checks(alloc, tables, need)?)
            .or(output_unit_check(alloc, tables, need)?)
            .or(missing_output_check(alloc, tables, need)?),
    )
}

/// The checks 18 and 19, where the samples are known.
fn known_sample_checks(
    alloc: Global,
    tables: &Tables,
    need: &Need,
) -> Result<(Option<Refusal>, Option<Refusal>), AllocError>
    ensures rows { IfOk result (λ found. found.0 ≡ known_samples need.now (sample_checks (rows_of tables.now) need.now need.now.samples)) }
    ensures summaries { IfOk result (λ found. found.1 ≡ known_samples need.now (summary_size_check (rows_of tables.now) need.now need.now.samples)) }
{
    if need.samples == 0 {
        return Ok((None, None));
    }
    let counts = summary_counts(alloc, tables)?;
    Ok((
        sample_checks(tables, need, need.samples),
        summary_size_check(tables, need, &counts, need.samples),
    ))
}

/// The checks 17 to 21.
#[tactic(auto, unfolding(crate::specs::Checks::size_checks))]
fn size_checks(alloc: Global, tables: &Tables, need: &Need) -> Result<Option<Refusal>, AllocError>
    ensures value { IfOk result (λ found. found ≡ first_of (size_checks (rows_of tables.now) need.now)) }
{
    let (rows, summaries) = known_sample_checks(alloc, tables, need)?;
    Ok(
        summary_checks(alloc, tables, need)?
            .or(rows)
            .or(summaries)
            .or(period_check(tables, need))
            .or(damage_size_check(tables, need)),
    )
}

/// The first refusal, group by group: a later group is not made where an earlier one refuses.
fn first_refusal(alloc: Global, tables: &Tables, need: &Need) -> Result<Option<Refusal>, AllocError>
    ensures value { IfOk result (λ found. found ≡ first_refusal (rows_of tables.now) need.now) }
{
    let found = table_checks(alloc, tables, need)?;
    if found.is_some() {
        return Ok(found);
    }
    let found = programme_checks(alloc, tables, need)?;
    if found.is_some() {
        return Ok(found);
    }
    size_checks(alloc, tables, need)
}

/// The answer to a first refusal.
fn answer_of(found: Option<Refusal>) -> Result<(), CheckStop>
    ensures value { result ≡ answer_of found }
{
    match found {
        Some(Refusal { number, table, row }) => Err(CheckStop::Check { number, table, row }),
        None => Ok(()),
    }
}

/// Makes each check of the loaded tables, and gives the first refusal: by the check's number, then by the table,
/// then by the row. A check is made where all tables that it names are loaded, 18 and 19 only where `need.samples` is
/// above 0. The other error is want of memory.
pub fn first_check(alloc: Global, tables: &Tables, need: &Need) -> Result<(), CheckStop>
    ensures exact { (result ≡ answer_of (first_refusal (rows_of tables.now) need.now)) ⊎ (result ≡ Err CheckStop.OutOfMemory) }
{
    match first_refusal(alloc, tables, need) {
        Ok(found) => answer_of(found),
        Err(_) => Err(CheckStop::OutOfMemory),
    }
}

/// Makes the checks 18 and 19 for a number of samples, by the numbers of summaries that `summary_counts` gave for these
/// tables. Takes no memory. An error is the first of the two that refuses the tables.
#[tactic(auto, unfolding(crate::specs::Checks::samples_refusal))]
pub fn samples_check(
    tables: &Tables,
    need: &Need,
    counts: &SummaryCounts,
    samples: u32,
) -> Result<(), CheckStop>
    requires { CountsSummaries (rows_of tables.now) counts.now }
    ensures exact { result ≡ answer_of (samples_refusal (rows_of tables.now) need.now samples) }
{
    answer_of(sample_checks(tables, need, samples).or(summary_size_check(
        tables, need, counts, samples,
    )))
}
