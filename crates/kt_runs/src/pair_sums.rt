//! The pairs of sums, which stand in the order of the sidx from some place on.
//! The rule: docs/STREAMS.md, "Records".
ghost use Rattle.std.specs.Prelude.{◌≡◌, ◌+◌, ◌*◌, ◌<◌, ◌≤◌, ◌^◌, [], ◌++◌, length, IfOk, OnOk};
ghost use Rattle.std.specs.List.{cons_option};
ghost use Rattle.kt_runs.specs.Sidx.{pair_of, sidx_at};
ghost use Rattle.kt_runs.specs.PairRoom.{AreEnded};
ghost use Rattle.kt_runs.specs.PairSums.{pairs_upto};

use crate::kept_pairs::{end_pairs, keep_pair};
use crate::sidx::sidx_at;
use kt_stream::{Pair, Pairs};
use std::alloc::{AllocError, Global};

/// The pair of the sidx at a place.
#[inline]
fn pair_at(place: u32, loss: u64) -> Pair
    ensures value { result ≡ record { sidx = sidx_at place; loss = loss } }
{
    Pair {
        sidx: sidx_at(place),
        loss,
    }
}

/// Appends the pair of the sidx at a place, where its loss is above 0. An error is want of memory.
#[inline]
fn push_pair(pairs: &mut Vec<Pair>, place: u32, loss: u64) -> Result<(), AllocError>
    ensures ok { OnOk result (pairs.new.items ≡ pairs.old.items ++ cons_option (pair_of (sidx_at place) loss) []) }
{
    if loss > 0 {
        pairs.push(pair_at(place, loss))?;
    }
    Ok(())
}

/// The pairs of the sums that are above 0, where the first sum is for the sidx at the place `least`. An error is want of memory.
pub fn pairs_of(alloc: Global, sums: &[u64], least: u64) -> Result<Pairs, AllocError>
    requires within { least + length sums.now ≤ 2 ^ 32 }
    ensures value { IfOk result (λ pairs. pairs ≡ pairs_upto least sums.now (length sums.now)) }
{
    let used = sums.iter().filter(|loss| **loss > 0).count();
    let mut pairs = Vec::with_capacity(alloc, used)?;
    for place in 0..sums.len() {
        push_pair(&mut pairs, (least + place as u64) as u32, sums[place])?;
    }
    Ok(Pairs::from_vec(pairs))
}

/// Writes the pairs of the sums that are above 0, and the end pair behind them, into room for them, where the first sum is for the sidx
/// at the place `least`. Answers how many bytes these are: 0 where there is no pair.
pub fn write_pairs(room: &mut [u8], sums: &[u64], least: u64) -> usize
    requires within { least + length sums.now ≤ 2 ^ 32 }
    requires room { 12 * length sums.now + 12 ≤ length room.old }
    ensures value { AreEnded (pairs_upto least sums.now (length sums.now)) result room.new }
    ensures within { result ≤ length room.new }
    ensures room { length room.new ≡ length room.old }
{
    let mut used = 0;
    for place in 0..sums.len() {
        let pair = pair_at((least + place as u64) as u32, sums[place]);
        used = keep_pair(room, used, &pair);
    }
    end_pairs(room, used)
}
