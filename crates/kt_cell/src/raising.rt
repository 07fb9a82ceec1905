//! Why a loss is refused, and what it makes of the cell of its key.
//! The rules: docs/CALCULATION.md, "Periods"; docs/LIMITS.md, "Cells".
ghost use Rattle.std.specs.Prelude.{◌≡◌, ◌+◌, ◌<◌, ◌≤◌, ◌^◌, IfNone, None};
ghost use Rattle.kt_cell.specs.Standing.{most_total, most_cells, total_in, maximum_in, refusal_of, raised, one_of};

use crate::cell::{Cell, CellStop};
use kt_rec::CellKey;

/// The most cells.
pub const MOST_CELLS: usize = 20_000_000;

/// The greatest total of a key, in cents.
pub const MOST_TOTAL: u64 = 1_000_000_000_000_000;

/// Why so many cells, among them this one of the key, refuse a loss.
pub fn refusal(held: usize, old: Option<Cell>, key: CellKey, loss: u64) -> Option<CellStop>
    requires total { total_in old ≤ most_total }
    requires loss { loss ≤ 10 ^ 16 }
    ensures value { result ≡ refusal_of held old key loss }
    ensures room { IfNone result (total_in old + loss ≤ most_total) }
    ensures few { IfNone result (old ≡ None → held < most_cells) }
{
    match old {
        Some(cell) if cell.total + loss > MOST_TOTAL => Some(CellStop::Period {
            key,
            held: cell.total,
            more: loss,
        }),
        None if held >= MOST_CELLS => Some(CellStop::Cells { held: held as u64 }),
        None if loss > MOST_TOTAL => Some(CellStop::Period {
            key,
            held: 0,
            more: loss,
        }),
        _ => None,
    }
}

/// The maximum of a key's cell, 0 where it has none.
pub fn maximum_in(old: Option<Cell>) -> u64
    ensures value { result ≡ maximum_in old }
{
    match old {
        Some(cell) => cell.maximum,
        None => 0,
    }
}

/// The cell of a key after one more loss.
pub fn raised(old: Option<Cell>, loss: u64) -> Cell
    requires { total_in old + loss ≤ most_total }
    ensures value { result ≡ raised old loss }
{
    match old {
        Some(cell) => Cell {
            total: cell.total + loss,
            maximum: cell.maximum.max(loss),
        },
        None => Cell {
            total: loss,
            maximum: loss,
        },
    }
}

/// How many cells are new where a key has one: 1 where it had none before.
#[inline]
pub fn new_cells(old: Option<Cell>) -> usize
    ensures value { result + one_of old ≡ 1 }
{
    match old {
        Some(_) => 0,
        None => 1,
    }
}
