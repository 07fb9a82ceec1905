//! The totals or the maxima of a row's cells.
//! The rules: docs/CALCULATION.md, "Kinds of exceedance curves".
ghost use Rattle.std.specs.Prelude.{◌≡◌, ◌≤◌, ◌<◌, ◌+◌, ◌-◌, ◌++◌, All, Some, false, if◌then◌else◌, length, sum, take, OnOk};
ghost use Rattle.kt_period_cells.specs.RowCells.{IsRising, cell_in, cells_of, placed};
ghost use Rattle.kt_cell.specs.Amounts.{amount_in, amount_or_none};
ghost use Rattle.kt_period_cells.specs.SummaryRows.{cell_amounts};
ghost use Rattle.kt_ranks.specs.AmountLists.{HasMore, HasRoom, HaveMore};

use crate::amount_list::{AmountList, one_if};
use kt_cell::{Cell, has_total};
use kt_money::OutOfMemory;
use kt_period_cells::{Row, placed_cell};

/// The maximum of a cell, or its total, in cents.
#[inline]
fn amount(cell: &Cell, maxima: bool) -> u64
    ensures value { result ≡ amount_in maxima (Some cell.now) }
{
    if maxima { cell.maximum } else { cell.total }
}

/// Appends the amount of a cell, where there is one. An error is want of memory.
fn push_found(found: &mut Vec<u64>, cell: Option<Cell>, maxima: bool) -> Result<(), OutOfMemory>
    ensures ok { OnOk result (found.new.items ≡ found.old.items ++ amount_or_none maxima cell) }
{
    match cell {
        Some(cell) => found.push(amount(&cell, maxima))?,
        None => {}
    }
    Ok(())
}

/// Appends the amount of a cell, where there is one, to a list that has room.
fn put_found(list: &mut AmountList, cell: Option<Cell>, maxima: bool)
    requires { HasRoom list.old }
    ensures { HasMore (amount_or_none maxima cell) list.old list.new }
{
    match cell {
        Some(cell) => list.put(amount(&cell, maxima), true),
        None => list.put(0, false),
    }
}

/// Appends the amounts of samples that have places, each to a list of its own: that of the last to the first list, and that of the sample
/// before to each other.
fn put_places(lists: &mut [AmountList], places: &[Cell], last: usize, maxima: bool)
    requires count { length lists.old ≤ last }
    requires place { last < length places.now }
    requires room { All HasRoom lists.old }
    ensures many { length lists.new ≡ length lists.old }
    ensures more { HaveMore (λ k. amount_or_none maxima (cell_in (placed 0 places.now) (last - k))) lists.old lists.new }
{
    for k in 0..lists.len() {
        let place = places[last - k];
        lists[k].put(amount(&place, maxima), has_total(&place));
    }
}

/// Appends the amounts of listed cells: of the mean, or of all samples.
fn push_listed(
    found: &mut Vec<u64>,
    cells: &[(u32, Cell)],
    mean: bool,
    maxima: bool,
) -> Result<(), OutOfMemory>
    ensures ok { OnOk result (found.new.items ≡ found.old.items ++ cell_amounts maxima mean cells.now) }
{
    for one in cells {
        if (one.0 == 0) == mean {
            found.push(amount(&one.1, maxima))?;
        }
    }
    Ok(())
}

/// Writes the amounts of the places of samples that have cells, from that of sample 1 on, behind values that there are. Returns how many
/// values there are then; what stands behind them has no meaning.
fn write_samples(values: &mut [u64], used: usize, samples: &[Cell], maxima: bool) -> usize
    requires room { used + length samples.now ≤ length values.old }
    ensures size { length values.new ≡ length values.old }
    ensures value { take result values.new ≡ take used values.old ++ cell_amounts maxima false (placed 1 samples.now) }
{
    let mut end = used;
    for cell in samples {
        // Written in any case and counted where there is a cell, so that there is no branch.
        values[end] = amount(cell, maxima);
        end += one_if(has_total(cell));
    }
    end
}

/// Appends the amounts of the places of samples that have cells, from that of sample 1 on. An error is want of memory.
fn push_samples(found: &mut Vec<u64>, samples: &[Cell], maxima: bool) -> Result<(), OutOfMemory>
    ensures ok { OnOk result (found.new.items ≡ found.old.items ++ cell_amounts maxima false (placed 1 samples.now)) }
{
    let used = found.len();
    found.resize(used + samples.len(), 0)?;
    let end = write_samples(found.as_mut_slice(), used, samples, maxima);
    found.truncate(end);
    Ok(())
}

/// The sum of the amounts of the samples among listed cells.
fn listed_sum(cells: &[(u32, Cell)], maxima: bool) -> u128
    ensures value { result ≡ sum (cell_amounts maxima false cells.now) }
{
    let mut total = 0u128;
    for one in cells {
        total += u128::from(amount_if(one.0 != 0, &one.1, maxima));
    }
    total
}

/// The sum of the amounts of the places of samples, from that of sample 1 on.
fn placed_sum(samples: &[Cell], maxima: bool) -> u128
    ensures value { result ≡ sum (cell_amounts maxima false (placed 1 samples.now)) }
{
    let mut total = 0u128;
    for cell in samples {
        total += u128::from(amount_if(has_total(cell), cell, maxima));
    }
    total
}

/// The amount of a cell, 0 where it does not count.
#[inline]
fn amount_if(counts: bool, cell: &Cell, maxima: bool) -> u64
    ensures { result ≡ (if counts then amount_in maxima (Some cell.now) else 0) }
{
    if counts { amount(cell, maxima) } else { 0 }
}

/// As many cells as there may be: those that are listed, or a place for each sample.
pub(crate) fn room(row: &Row) -> usize {
    if row.places().is_empty() {
        return row.listed().len();
    }
    row.places().len()
}

/// Appends the amounts of the mean, or those of all samples. An error is want of memory.
pub(crate) fn push_kind(
    row: &Row,
    found: &mut Vec<u64>,
    mean: bool,
    maxima: bool,
) -> Result<(), OutOfMemory>
    ensures ok { OnOk result (found.new.items ≡ found.old.items ++ cell_amounts maxima mean (cells_of row.now)) }
{
    let places = row.places();
    let [_mean, samples @ ..] = places else {
        return push_listed(found, row.listed(), mean, maxima);
    };
    if mean {
        return push_found(found, placed_cell(places, 0), maxima);
    }
    push_samples(found, samples, maxima)
}

/// The sum of the amounts of all samples.
pub(crate) fn samples_sum(row: &Row, maxima: bool) -> u128
    ensures value { result ≡ sum (cell_amounts maxima false (cells_of row.now)) }
{
    let [_mean, samples @ ..] = row.places() else {
        return listed_sum(row.listed(), maxima);
    };
    placed_sum(samples, maxima)
}

/// Appends the amounts of samples, as `put_samples` does, looking for each cell.
fn put_cells(row: &Row, lists: &mut [AmountList], last: u32, maxima: bool)
    requires rising { IsRising (cells_of row.now) }
    requires count { length lists.old ≤ last }
    requires room { All HasRoom lists.old }
    ensures many { length lists.new ≡ length lists.old }
    ensures more { HaveMore (λ k. amount_or_none maxima (cell_in (cells_of row.now) (last - k))) lists.old lists.new }
{
    for k in 0..lists.len() {
        put_found(&mut lists[k], row.cell(last - k as u32), maxima);
    }
}

/// Appends the amounts of samples, each to a list of its own: that of the last to the first list, and that of the sample before to each
/// other.
pub(crate) fn put_samples(row: &Row, lists: &mut [AmountList], last: u32, maxima: bool)
    requires rising { IsRising (cells_of row.now) }
    requires count { length lists.old ≤ last }
    requires room { All HasRoom lists.old }
    ensures many { length lists.new ≡ length lists.old }
    ensures more { HaveMore (λ k. amount_or_none maxima (cell_in (cells_of row.now) (last - k))) lists.old lists.new }
{
    let places = row.places();
    if last as usize >= places.len() {
        put_cells(row, lists, last, maxima);
        return;
    }
    put_places(lists, places, last as usize, maxima);
}
