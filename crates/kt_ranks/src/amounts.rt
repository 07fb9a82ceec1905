//! The totals or the maxima of a summary's cells.
//! The rules: docs/CALCULATION.md, "Kinds of exceedance curves".
ghost use Rattle.std.specs.Prelude.{◌≡◌, ◌≤◌, ◌+◌, ◌-◌, ◌<◌, ◌^◌, ◌++◌, ℕ, sum, length, slice_index, All, IfOk, OnOk};
ghost use Rattle.kt_cell.specs.Sets.{of_kind};
ghost use Rattle.kt_cell.specs.Amounts.{amounts_of, of_period, of_sample};
ghost use Rattle.kt_ranks.specs.AmountLists.{AreSamplesDown, HasRoom, HaveMore, IsRoom};
ghost use Rattle.kt_period_cells.specs.SummaryRows.{AreRising, ArePeriods, IsSummary, entries_in, row_at, group_entries};

use crate::amount_list::AmountList;
use crate::row_amounts;
use kt_money::OutOfMemory;
use kt_period_cells::{Row, SummaryCells, SummaryRow};
use std::alloc::Global;

/// Appends the amounts of the row at a place: those of the mean, or those of all samples. An error is want of memory.
fn push_kind(
    found: &mut Vec<u64>,
    rows: &[Row],
    place: &SummaryRow,
    mean: bool,
    maxima: bool,
) -> Result<(), OutOfMemory>
    ensures ok { OnOk result (found.new.items ≡ found.old.items ++ amounts_of maxima (of_kind mean) (entries_in (row_at rows.now place.now.row))) }
{
    if place.row >= rows.len() {
        return Ok(());
    }
    row_amounts::push_kind(&rows[place.row], found, mean, maxima)
}

/// As many amounts of samples as the row at a place may have.
fn room_of(rows: &[Row], place: &SummaryRow) -> usize {
    if place.row >= rows.len() {
        return 0;
    }
    row_amounts::room(&rows[place.row])
}

/// Appends the amounts of samples of the row at a place, each to a list of its own: that of the last to the first list, and that of the
/// sample before to each other.
fn put_samples(lists: &mut [AmountList], rows: &[Row], place: &SummaryRow, last: u32, maxima: bool)
    requires rising { AreRising rows.now }
    requires count { length lists.old ≤ last }
    requires room { All HasRoom lists.old }
    ensures many { length lists.new ≡ length lists.old }
    ensures more { HaveMore (λ k. amounts_of maxima (of_sample (last - k)) (entries_in (row_at rows.now place.now.row))) lists.old lists.new }
{
    if place.row >= rows.len() {
        return;
    }
    row_amounts::put_samples(&rows[place.row], lists, last, maxima);
}

/// So many empty lists, each with this room. An error is want of memory.
fn empty_lists(alloc: Global, count: u32, room: usize) -> Result<Vec<AmountList>, OutOfMemory>
    ensures many { IfOk result (λ lists. length lists.items ≡ count) }
    ensures empty { IfOk result (λ lists. All (IsRoom room) lists.items) }
{
    let mut lists = Vec::with_capacity(alloc, count as usize)?;
    for _list in 0..count {
        lists.push(AmountList::new(alloc, room)?)?;
    }
    Ok(lists)
}

/// Adds the samples of the row at a place to the sum of its period.
fn add_period(sums: &mut [u128], rows: &[Row], place: &SummaryRow, maxima: bool)
    requires periods { ArePeriods (length sums.old) rows.now }
    requires room { (period : ℕ) → slice_index sums.old period + sum (amounts_of maxima (of_period (period + 1)) (entries_in (row_at rows.now place.now.row))) < 2 ^ 128 }
    ensures len { length sums.new ≡ length sums.old }
    ensures sums { (period : ℕ) → slice_index sums.new period ≡ slice_index sums.old period + sum (amounts_of maxima (of_period (period + 1)) (entries_in (row_at rows.now place.now.row))) }
{
    if place.row >= rows.len() {
        return;
    }
    let row = &rows[place.row];
    sums[row.period() as usize - 1] += row_amounts::samples_sum(row, maxima);
}

/// As many amounts as there may be: a mean of each row, or of its samples as many as it has room for. Of this room only what is needed
/// is ever touched.
fn kind_room(cells: &SummaryCells<'_>, mean: bool) -> usize {
    if mean {
        return cells.places.len();
    }
    let mut room = 0usize;
    for place in cells.places {
        room = room.saturating_add(room_of(cells.rows, place));
    }
    room
}

/// The amounts of the means, or those of all samples. An error is want of memory.
pub fn kind_amounts(
    cells: &SummaryCells<'_>,
    alloc: Global,
    mean: bool,
) -> Result<Vec<u64>, OutOfMemory>
    ensures { IfOk result (λ found. found.items ≡ amounts_of cells.now.maxima (of_kind mean) (group_entries cells.now)) }
{
    let mut found = Vec::with_capacity(alloc, kind_room(cells, mean))?;
    for place in cells.places {
        push_kind(&mut found, cells.rows, place, mean, cells.maxima)?;
    }
    Ok(found)
}

/// The amounts of so many samples, from the last of them down: all of them in one pass over the rows, in which their cells stand side
/// by side. An error is want of memory.
pub fn samples_down(
    cells: &SummaryCells<'_>,
    alloc: Global,
    last: u32,
    count: u32,
) -> Result<Vec<AmountList>, OutOfMemory>
    requires group { IsSummary cells.now }
    requires count { count ≤ last }
    ensures many { IfOk result (λ lists. length lists.items ≡ count) }
    ensures each { IfOk result (λ lists. AreSamplesDown cells.now.maxima (group_entries cells.now) last lists.items) }
{
    let mut lists = empty_lists(alloc, count, cells.places.len())?;
    for place in cells.places {
        put_samples(&mut lists, cells.rows, place, last, cells.maxima);
    }
    Ok(lists)
}

/// Adds the samples of each period to sums that are 0, one for each period. Each sum of a period is below 2^128.
pub fn add_periods(cells: &SummaryCells<'_>, sums: &mut [u128])
    requires group { IsSummary cells.now }
    requires len { length sums.old ≡ cells.now.periods }
    requires room { (period : ℕ) → sum (amounts_of cells.now.maxima (of_period (period + 1)) (group_entries cells.now)) < 2 ^ 128 }
    requires none { (place : ℕ) → slice_index sums.old place ≡ 0 }
    ensures len { length sums.new ≡ cells.now.periods }
    ensures sums { (place : ℕ) → slice_index sums.new place ≡ sum (amounts_of cells.now.maxima (of_period (place + 1)) (group_entries cells.now)) }
{
    for place in cells.places {
        add_period(sums, cells.rows, place, cells.maxima);
    }
}
