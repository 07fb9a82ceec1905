//! The checks of the number of cells that the samples make.
//! The rules: docs/CHECKS.md, "Losses of an event", "Summary losses of an event".
ghost use Rattle.std.specs.Prelude.{◌≡◌, ◌<◌, ◌^◌, IfOk};
ghost use Rattle.kt_rec.specs.Rows.{rows_of};
ghost use Rattle.kt_checks.specs.SummaryChecks.{CountsSummaries, sample_checks, summaries_of, zero_above, summary_size_check};

use crate::sizes::rows_above;
use kt_keys::{Need, Refusal, base, distinct_pairs, has_base, names_of};
use kt_rec::{Table, Tables};
use std::alloc::{AllocError, Global};

/// The numbers of distinct summaries, each with its set.
#[derive(Clone, Copy, Drop)]
pub struct SummaryCounts {
    /// Of items, in `gulsummaryxref`.
    pub of_items: u64,
    /// Of outputs, in `fmsummaryxref`.
    pub of_outputs: u64,
}

/// Counts the distinct summaries of the tables. An error is want of memory.
pub fn summary_counts(alloc: Global, tables: &Tables) -> Result<SummaryCounts, AllocError>
    ensures value { IfOk result (CountsSummaries (rows_of tables.now)) }
{
    let by_item: Vec<(u32, u32)> = names_of(alloc, &tables.gulsummaryxref)?;
    let by_output: Vec<(u32, u32)> = names_of(alloc, &tables.fmsummaryxref)?;
    Ok(SummaryCounts {
        of_items: distinct_pairs(alloc, &by_item)?,
        of_outputs: distinct_pairs(alloc, &by_output)?,
    })
}

/// Check 18: the items, or the outputs, times the cells of each are above 2,000,000.
pub(crate) fn sample_checks(tables: &Tables, need: &Need, samples: u32) -> Option<Refusal>
    ensures value { result ≡ sample_checks (rows_of tables.now) need.now samples }
{
    let cells = u64::from(samples) + 2;
    let items = rows_above(2_000_000, tables.items.len(), cells);
    let outputs = rows_above(2_000_000, tables.fm_xref.len(), cells);
    Refusal::of(18, base(Table::Items), has_base(need, Table::Items), items).or(Refusal::of(
        18,
        base(Table::FmXref),
        has_base(need, Table::FmXref),
        outputs,
    ))
}

/// The summaries of all perspectives.
fn summaries_of(tables: &Tables, need: &Need, counts: &SummaryCounts) -> u128
    requires { CountsSummaries (rows_of tables.now) counts.now }
    ensures value { result ≡ summaries_of (rows_of tables.now) need.now }
    ensures bound { result < 2 ^ 66 }
{
    let by_item = if has_base(need, Table::GulSummaryXref) {
        counts.of_items
    } else {
        0
    };
    let by_output = if has_base(need, Table::FmSummaryXref) {
        counts.of_outputs
    } else {
        0
    };
    let perspectives = if need.net { 2 } else { 1 };
    u128::from(by_item) + perspectives * u128::from(by_output)
}

/// Row 0, where so many with so much each are above the most.
fn zero_above(most: u64, number: u128, each: u64) -> Option<u64>
    requires number { number < 2 ^ 66 }
    requires each { each < 2 ^ 60 }
    ensures value { result ≡ zero_above most number each }
{
    if number * u128::from(each) > u128::from(most) {
        Some(0)
    } else {
        None
    }
}

/// Check 19: the summaries times the cells of each are above 1,000,000.
pub(crate) fn summary_size_check(
    tables: &Tables,
    need: &Need,
    counts: &SummaryCounts,
    samples: u32,
) -> Option<Refusal>
    requires { CountsSummaries (rows_of tables.now) counts.now }
    ensures value { result ≡ summary_size_check (rows_of tables.now) need.now samples }
{
    let by_output = has_base(need, Table::FmSummaryXref);
    let table = if by_output {
        Table::FmSummaryXref
    } else {
        Table::GulSummaryXref
    };
    let made = has_base(need, Table::GulSummaryXref) || by_output;
    let row = zero_above(
        1_000_000,
        summaries_of(tables, need, counts),
        u64::from(samples) + 2,
    );
    Refusal::of(19, base(table), made, row)
}
