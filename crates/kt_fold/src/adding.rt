//! Adding the records of an event's block to cells.
//! The rules: docs/CALCULATION.md, "Periods"; docs/REFUSALS.md, "Order".
ghost use Rattle.std.specs.Prelude.{◌≡◌, List, All, true};
ghost use Rattle.kt_period_cells.specs.Journal.{TakesOver};
ghost use Rattle.kt_cell.specs.Losses.{Added};
ghost use Rattle.kt_cell.specs.Standing.{StandsFor};
ghost use Rattle.kt_block.specs.Block.{AreSummaries};
ghost use Rattle.kt_stream.specs.Summary.{IsSummary};
ghost use Rattle.kt_tables.specs.Portfolio.{KeepsPeriods};
ghost use Rattle.kt_fold.specs.Added.{block_added, summaries_added};
ghost use Rattle.kt_fold.specs.Folds.{AddsAll};
ghost use Rattle.kt_fold.specs.ReadyParts.{IsReadyBlock};

use crate::fold::FoldStop;
use crate::limit::stop_of_cells;
use crate::ready::ReadyBlock;
use kt_event::{EventBlock, Summaries};
use kt_period_cells::Cells;
use kt_rec::Occurrence;
use kt_tables::Portfolio;
use std::alloc::AllocError;

/// Adds the records of the summaries of a set, with the occurrences of their events.
fn add_summaries(
    portfolio: &Portfolio,
    cells: &mut Cells,
    summaries: &Summaries,
) -> Result<(), FoldStop>
    requires periods { KeepsPeriods portfolio.now.rows }
    requires same { cells.old.periods ≡ portfolio.now.rows.periods }
    requires good { All (IsSummary cells.old.samples) summaries.now.records }
    ensures added { (history : List Added) → StandsFor history cells.old → AddsAll history (summaries_added portfolio.now.rows summaries.now) cells.new result }
    ensures size { (cells.new.periods ≡ cells.old.periods) × (cells.new.samples ≡ cells.old.samples) }
{
    for entry in summaries.records.as_slice() {
        let occurrences = portfolio.occurrences(entry.event);
        if let Err(stop) = cells.add(summaries.perspective, summaries.set, entry, occurrences) {
            return Err(stop_of_cells(entry.event, stop));
        }
    }
    Ok(())
}

/// Adds the records of an event's block, set by set.
pub(crate) fn add_block(
    portfolio: &Portfolio,
    cells: &mut Cells,
    block: &EventBlock,
) -> Result<(), FoldStop>
    requires periods { KeepsPeriods portfolio.now.rows }
    requires same { cells.old.periods ≡ portfolio.now.rows.periods }
    requires good { AreSummaries cells.old.samples block.now.summaries }
    ensures added { (history : List Added) → StandsFor history cells.old → AddsAll history (block_added portfolio.now.rows block.now) cells.new result }
    ensures size { (cells.new.periods ≡ cells.old.periods) × (cells.new.samples ≡ cells.old.samples) }
{
    for summaries in block.summaries.as_slice() {
        if let Err(stop) = add_summaries(portfolio, cells, summaries) {
            return Err(stop);
        }
    }
    Ok(())
}

/// Whether two occurrences are the same.
fn is_same(one: &Occurrence, other: &Occurrence) -> bool
    ensures { result ≡ true → one.now ≡ other.now }
{
    one.event_id == other.event_id
        && one.period_no == other.period_no
        && one.occ_year == other.occ_year
        && one.occ_month == other.occ_month
        && one.occ_day == other.occ_day
}

/// Whether occurrences are the same, one by one.
fn are_same(one: &[Occurrence], other: &[Occurrence]) -> bool
    ensures { result ≡ true → one.now ≡ other.now }
{
    if one.len() != other.len() {
        return false;
    }
    for at in 0..one.len() {
        if !is_same(&one[at], &other[at]) {
            return false;
        }
    }
    true
}

/// Takes over the cells of the records of an event's block alone, where there are some, and answers whether it did. An error is want of
/// memory.
fn take_ready(
    portfolio: &Portfolio,
    cells: &mut Cells,
    block: &EventBlock,
    ready: Option<ReadyBlock>,
) -> Result<bool, AllocError>
    requires ready { IsReadyBlock block.now ready }
    ensures taken { (history : List Added) → StandsFor history cells.old → TakesOver history (block_added portfolio.now.rows block.now) result cells.new }
    ensures size { (cells.new.periods ≡ cells.old.periods) × (cells.new.samples ≡ cells.old.samples) }
{
    match ready {
        Some(own) if are_same(portfolio.occurrences(block.event), own.at.as_slice()) => {
            cells.take_over(own.cells)
        }
        _ => Ok(false),
    }
}

/// Adds the records of an event's block: their cells are taken over where these were made before and that can be done.
pub(crate) fn add_ready(
    portfolio: &Portfolio,
    cells: &mut Cells,
    block: &EventBlock,
    ready: Option<ReadyBlock>,
) -> Result<(), FoldStop>
    requires periods { KeepsPeriods portfolio.now.rows }
    requires same { cells.old.periods ≡ portfolio.now.rows.periods }
    requires good { AreSummaries cells.old.samples block.now.summaries }
    requires ready { IsReadyBlock block.now ready }
    ensures added { (history : List Added) → StandsFor history cells.old → AddsAll history (block_added portfolio.now.rows block.now) cells.new result }
    ensures size { (cells.new.periods ≡ cells.old.periods) × (cells.new.samples ≡ cells.old.samples) }
{
    match take_ready(portfolio, cells, block, ready) {
        Ok(true) => Ok(()),
        Ok(false) => add_block(portfolio, cells, block),
        Err(_) => Err(FoldStop::OutOfMemory),
    }
}
