//! The pairs of an item's record.
//! The rule: docs/STREAMS.md, "Records".
ghost use Rattle.std.specs.Prelude.{◌≡◌, ◌+◌, ◌*◌, ◌<◌, ◌≤◌, length, slice_index, take, IfOk, []};
ghost use Rattle.kt_gul.specs.GroundUp.{sidx_at, pairs_of};
ghost use Rattle.kt_stream.specs.Pairs.{pairs_bytes};

use kt_stream::{END, Pair, write_pair};

/// The length of a pair in bytes.
const PAIR: usize = 12;

/// 1 for a loss above 0, else 0.
#[inline]
fn one_if(loss: u64) -> usize
    ensures some { 0 < loss → result ≡ 1 }
    ensures none { loss ≡ 0 → result ≡ 0 }
    ensures few { result ≤ 1 }
{
    usize::from(loss > 0)
}

/// The pair of a sample's loss at a place.
#[inline]
fn sample_pair(place: usize, loss: u64) -> Pair
    requires least { 2 ≤ place }
    requires most { place ≤ 1001 }
    ensures value { result ≡ record { sidx = sidx_at place; loss = loss } }
{
    Pair {
        sidx: (place as u32 - 1).cast_signed(),
        loss,
    }
}

/// Writes the pairs of an item's losses and the end pair behind them, and answers how many bytes these are: 0 where there is no
/// pair.
#[inline(never)]
pub(crate) fn write_row(bytes: &mut [u8], row: &[u64], samples: u32) -> usize
    requires samples { samples ≤ 1000 }
    requires row { length row.now ≡ samples + 2 }
    requires bytes { length bytes.old ≡ 12036 }
    ensures none { result ≡ 0 → pairs_of (λ place. slice_index row.now place) samples ≡ [] }
    ensures some { 0 < result → 0 < length (pairs_of (λ place. slice_index row.now place) samples) }
    ensures bytes { 0 < result → take result bytes.new ≡ pairs_bytes (pairs_of (λ place. slice_index row.now place) samples) }
    ensures within { result ≤ length bytes.old }
    ensures room { length bytes.new ≡ length bytes.old }
{
    let loss = row[0];
    write_pair(bytes, 0, &Pair { sidx: -2, loss });
    let mut used = one_if(loss);
    let loss = row[1];
    write_pair(bytes, PAIR * used, &Pair { sidx: -1, loss });
    used += one_if(loss);
    for place in 2..samples as usize + 2 {
        let loss = row[place];
        write_pair(bytes, PAIR * used, &sample_pair(place, loss));
        used += one_if(loss);
    }
    if used == 0 {
        return 0;
    }
    write_pair(bytes, PAIR * used, &END);
    PAIR * (used + 1)
}
