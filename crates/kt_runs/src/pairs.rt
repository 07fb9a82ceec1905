//! The pairs of the rows of a run.
//! The rule: docs/FINANCIAL_MODULE.md, "Insured losses".
ghost use Rattle.std.specs.Prelude.{◌≡◌, ◌+◌, ◌≤◌, ◌<◌, ◌++◌, [], length, slice_index, take, IfOk};
ghost use Rattle.std.specs.List.{cons_option};
ghost use Rattle.kt_runs.specs.Sidx.{pair_of, sidx_at};
ghost use Rattle.kt_runs.specs.LaneRows.{pairs_by_row, pairs_with, row_place};

use crate::sidx::sidx_at;
use kt_stream::{Pair, Pairs};
use std::alloc::{AllocError, Global};

/// The pair of a row.
#[inline]
pub(crate) fn pair_at(row: u32, loss: u64) -> Pair
    requires { row ≤ 1000 }
    ensures value { result ≡ record { sidx = sidx_at (row_place row); loss = loss } }
{
    let place = if row == 0 {
        2_147_483_647
    } else {
        2_147_483_648 + row
    };
    Pair {
        sidx: sidx_at(place),
        loss,
    }
}

/// How many losses of a lane are above 0.
fn count_of(lane: &[u64]) -> usize
    requires { length lane.now ≤ 1001 }
    ensures value { result ≡ length (pairs_by_row (slice_index lane.now) (length lane.now)) }
{
    let mut count = 0;
    for row in 0..lane.len() {
        if lane[row] > 0 {
            count += 1;
        }
    }
    count
}

/// Puts the pair of a row in a place among others, and gives the place of the next: where the loss is 0, the same again.
#[inline]
fn put_pair(pairs: &mut Vec<Pair>, place: usize, row: u32, loss: u64) -> usize
    requires row { row ≤ 1000 }
    requires place { place < length pairs.old.items }
    ensures next { result ≡ place + length (cons_option (pair_of (sidx_at (row_place row)) loss) []) }
    ensures value { take result pairs.new.items ≡ take place pairs.old.items ++ cons_option (pair_of (sidx_at (row_place row)) loss) [] }
    ensures same { length pairs.new.items ≡ length pairs.old.items }
{
    pairs[place] = pair_at(row, loss);
    if loss > 0 { place + 1 } else { place }
}

/// The pairs of a lane of losses in cents, where they are above 0. The first is that of the mean, and behind it stand those of the
/// samples, at most 1,000. An error is want of memory.
pub(crate) fn lane_pairs(alloc: Global, lane: &[u64]) -> Result<Pairs, AllocError>
    requires { length lane.now ≤ 1001 }
    ensures value { IfOk result (λ pairs. pairs ≡ pairs_by_row (slice_index lane.now) (length lane.now)) }
{
    let mut pairs = vec![in alloc; Pair { sidx: 0, loss: 0 }; count_of(lane)]?;
    let mut place = 0;
    for row in 0..lane.len() {
        if place < pairs.len() {
            place = put_pair(&mut pairs, place, row as u32, lane[row]);
        }
    }
    Ok(Pairs::from_vec(pairs))
}

/// The pairs of a record: that of its deviation in cents, where it is above 0, and those of its lane behind it. An error is want of memory.
pub(crate) fn record_pairs(alloc: Global, deviation: u64, lane: &[u64]) -> Result<Pairs, AllocError>
    requires { length lane.now ≤ 1001 }
    ensures value { IfOk result (λ pairs. pairs ≡ pairs_with deviation lane.now) }
{
    let behind = lane_pairs(alloc, lane)?;
    if deviation == 0 {
        return Ok(behind);
    }
    let mut pairs = Vec::new(alloc);
    pairs.push(Pair {
        sidx: -2,
        loss: deviation,
    })?;
    pairs.extend_from_slice(behind.as_slice())?;
    Ok(Pairs::from_vec(pairs))
}
