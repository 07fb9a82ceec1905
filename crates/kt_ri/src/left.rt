//! What is left of the pairs of a record, pair by pair.
//! The rules: docs/FINANCIAL_MODULE.md, "Reinsurance"; docs/STREAMS.md, "Records".
ghost use Rattle.std.specs.Prelude.{◌≡◌, ◌+◌, ◌*◌, ◌≤◌, length, slice_index};
ghost use Rattle.std.specs.List.{AllByRecursion};
ghost use Rattle.kt_stream.specs.Pairs.{IsPair, IsSidx};
ghost use Rattle.kt_runs.specs.PairRoom.{AreEnded};
ghost use Rattle.kt_ri.specs.Left.{left_at, pairs_left};

use kt_runs::{end_pairs, keep_pair, place_of};
use kt_stream::Pair;

/// The place of sidx -2, which has no row.
const FIRST: u32 = 2_147_483_646;

/// The place of sidx 0: those of the samples come behind it.
const MIDDLE: u32 = 2_147_483_648;

/// What is left of the loss of a pair in cents, where so much is ceded row by row; nothing at sidx -2.
#[inline]
fn loss_left(pair: &Pair, samples: u32, ceded: &[u64]) -> u64
    requires samples { samples ≤ 1000 }
    requires sidx { IsSidx samples pair.now.sidx }
    requires wide { length ceded.now ≡ samples + 1 }
    ensures value { result ≡ left_at (slice_index ceded.now) pair.now.sidx pair.now.loss }
{
    let place = place_of(pair);
    if place > FIRST {
        let row = place.saturating_sub(MIDDLE) as usize;
        return pair.loss.saturating_sub(ceded[row]);
    }
    0
}

/// A pair with what is left of its loss.
#[inline]
fn pair_left(pair: &Pair, samples: u32, ceded: &[u64]) -> Pair
    requires samples { samples ≤ 1000 }
    requires sidx { IsSidx samples pair.now.sidx }
    requires wide { length ceded.now ≡ samples + 1 }
    ensures value { result ≡ record { sidx = pair.now.sidx; loss = left_at (slice_index ceded.now) pair.now.sidx pair.now.loss } }
{
    Pair {
        sidx: pair.sidx,
        loss: loss_left(pair, samples, ceded),
    }
}

/// Writes what is left of pairs, where so much is ceded row by row in cents, and the end pair behind them, and gives how many bytes
/// these are: 0 where there is no pair.
pub(crate) fn write_left(room: &mut [u8], pairs: &[Pair], samples: u32, ceded: &[u64]) -> usize
    requires samples { samples ≤ 1000 }
    requires pairs { AllByRecursion (IsPair samples) pairs.now }
    requires wide { length ceded.now ≡ samples + 1 }
    requires room { 12 * length pairs.now + 12 ≤ length room.old }
    ensures value { AreEnded (pairs_left (slice_index ceded.now) pairs.now) result room.new }
    ensures within { result ≤ length room.new }
    ensures room { length room.new ≡ length room.old }
{
    let mut used = 0;
    for pair in pairs {
        used = keep_pair(room, used, &pair_left(pair, samples, ceded));
    }
    end_pairs(room, used)
}
