//! What ids have of the shares of a table.
//! The rule: docs/FINANCIAL_MODULE.md, "Reinsurance".
ghost use Rattle.std.specs.Prelude.{◌≡◌, ◌≤◌, ◌<◌, All, IfOk, length};
ghost use Rattle.kt_ceded.specs.CededShares.{AreCededShares, HasShares};

use kt_lanes::Lanes;
use kt_levels::{Table, are_in_turn};
use std::alloc::{AllocError, Global};

/// The shares of a table, added by the places of their ids, row by row.
fn added_lanes(
    alloc: Global,
    width: usize,
    rows: usize,
    places: &[usize],
    table: &Table,
) -> Result<Lanes, AllocError>
    requires rows { length table.now ≡ rows }
    requires within { All (λ place. place < width) places.now }
    requires shares { All (λ row. HasShares width places.now row.shares) table.now }
    ensures value { IfOk result (λ ceded. AreCededShares width places.now table.now (length places.now) ceded) }
{
    let mut ceded = Lanes::zeros(alloc, width, rows)?;
    for k in 0..places.len() {
        ceded.add(places[k], table.shares(k));
    }
    Ok(ceded)
}

/// What so many ids have of the shares of a table, by the places of the ids, a lane for each id: the shares as they stand where each id
/// has one, in their order, and otherwise those of each id added. The places are below `width`, the number of ids; the table has `rows`
/// rows, at least one, each with a share for each place, and what an id has of a row fits its type. Amounts are in cents. An error is
/// want of memory.
pub fn ceded_lanes(
    alloc: Global,
    width: usize,
    rows: usize,
    places: &[usize],
    table: Table,
) -> Result<Lanes, AllocError>
    requires some { 1 ≤ rows }
    requires rows { length table ≡ rows }
    requires within { All (λ place. place < width) places.now }
    requires shares { All (λ row. HasShares width places.now row.shares) table }
    ensures value { IfOk result (λ ceded. AreCededShares width places.now table (length places.now) ceded) }
{
    if are_in_turn(places, width) {
        return Ok(table.into_shares());
    }
    let ceded = added_lanes(alloc, width, rows, places, &table)?;
    Ok(ceded)
}
