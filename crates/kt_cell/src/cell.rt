//! The total and the maximum of one key, which losses are added to them, and why cells refuse a record.
//! The rules: docs/CALCULATION.md, "Periods".
ghost use Rattle.std.specs.Prelude.{◌≡◌};
ghost use Rattle.std.specs.List.{list_any};
ghost use Rattle.kt_cell.specs.Amounts.{sample_of};
ghost use Rattle.kt_cell.specs.Losses.{is_added};
ghost use Rattle.kt_cell.specs.Standing.{has_total};

use kt_rec::CellKey;
use kt_stream::Pair;

/// The losses of one key, in cents.
#[derive(Clone, Copy)]
pub struct Cell {
    /// The sum of the losses, in cents, at most 10^15. A total of 0 is no cell.
    pub total: u64,
    /// The greatest of them, in cents.
    pub maximum: u64,
}

/// A loss that was added to the cell of its key, so that it can be taken back.
#[derive(Clone, Copy)]
pub struct Change {
    /// The key.
    pub key: CellKey,
    /// The loss, in cents, above 0.
    pub loss: u64,
    /// The maximum of the key before, in cents.
    pub greatest: u64,
}

/// Why cells refuse a record.
#[derive(Clone, Copy)]
pub enum CellStop {
    /// The next loss needs one more cell than the 20,000,000 that are held.
    Cells {
        /// How many cells are held.
        held: u64,
    },
    /// The next loss makes the total of a key greater than 10^15 cents.
    Period {
        /// The key.
        key: CellKey,
        /// Its total before, in cents.
        held: u64,
        /// The loss, in cents.
        more: u64,
    },
    /// Want of memory.
    OutOfMemory,
}

/// Whether a place has a cell: its total is above 0.
#[inline]
pub fn has_total(cell: &Cell) -> bool
    ensures value { result ≡ has_total cell.now }
{
    cell.total != 0
}

/// The sample of a sidx with cells, and 0 for the mean.
#[inline]
pub fn sample_of(sidx: &i32) -> u32
    ensures value { result ≡ sample_of sidx.now }
{
    if *sidx < 0 { 0 } else { *sidx as u32 }
}

/// Whether the loss of a pair is added up: that of sidx -1 or from 1 up, where it is above 0.
#[inline]
pub fn is_added(pair: &Pair) -> bool
    ensures { result ≡ is_added pair.now }
{
    match pair.sidx {
        -1 | 1.. => 0 < pair.loss,
        _ => false,
    }
}

/// Whether the loss of one of the pairs is added up.
pub fn adds_any(pairs: &[Pair]) -> bool
    ensures { result ≡ list_any is_added pairs.now }
{
    pairs.iter().any(is_added)
}

/// Whether one of the places has a cell.
pub fn has_placed(places: &[Cell]) -> bool
    ensures value { result ≡ list_any has_total places.now }
{
    places.iter().any(has_total)
}
