//! The cut of the losses of a coverage to its insured value.
//! The rule: docs/CALCULATION.md, "Coverage cut".
ghost use Rattle.std.specs.Prelude.{◌≡◌, ℕ, ◌+◌, ◌<◌, ◌≤◌, ◌^◌, length, slice_index};
ghost use Rattle.kt_money.specs.Sharing.{share_to};
ghost use Rattle.kt_gul.specs.Coverage.{IsRow};
ghost use Rattle.kt_gul.specs.GroundUp.{cut_loss, final_loss};

use crate::draw::Draw;
use crate::quotient::quotient;
use std::num::nearest_u64_to_f64;

/// 2^52 less a half, as a float: behind a sum with it a number of 52 bits stands in the lowest bits, rounded down.
const BELOW: f64 = 4_503_599_627_370_495.5;

/// The bits of 2^52 as a float.
const BITS: u64 = 0x4330_0000_0000_0000;

/// About the part of an insured value that falls to the first losses of a total. No contract speaks of it: it is tested.
#[inline]
fn about(tiv: u64, total: u64, upto: u64) -> u64 {
    let part = nearest_u64_to_f64(tiv) * (nearest_u64_to_f64(upto) / nearest_u64_to_f64(total));
    let sum = part + BELOW;
    if sum >= BELOW {
        sum.to_bits().saturating_sub(BITS)
    } else {
        0
    }
}

/// The part of an insured value that falls to the first losses of a total, rounded down.
#[inline]
fn part_to(tiv: u64, total: u64, upto: u64) -> u64
    requires value { tiv ≤ 10 ^ 14 }
    requires some { 0 < total }
    requires within { upto ≤ total }
    ensures value { result ≡ share_to tiv total upto }
{
    if upto == 0 {
        return 0;
    }
    if upto == total {
        return tiv;
    }
    quotient(
        u128::from(tiv) * u128::from(upto),
        total,
        about(tiv, total, upto),
    )
}

/// The loss of an item beside those of its coverage's items in all, and of those before it.
#[inline]
fn cut_loss(tiv: u64, total: u64, before: u64, loss: u64) -> u64
    requires value { tiv ≤ 10 ^ 14 }
    requires within { before + loss ≤ total }
    ensures value { result ≡ cut_loss tiv total before loss }
    ensures most { result ≤ loss }
{
    if total <= tiv {
        return loss;
    }
    part_to(tiv, total, before + loss).saturating_sub(part_to(tiv, total, before))
}

/// The loss at a place of an item, with the cut or without it.
#[inline]
fn final_loss(cut: bool, tiv: u64, total: u64, before: u64, loss: u64, place: usize) -> u64
    requires value { tiv ≤ 10 ^ 14 }
    requires within { before + loss ≤ total }
    ensures value { result ≡ final_loss cut tiv total before loss place }
    ensures most { result ≤ loss }
{
    if cut && place != 0 {
        cut_loss(tiv, total, before, loss)
    } else {
        loss
    }
}

/// Writes the losses of an item over a row, with the cut or without it, where `totals` are those of the coverage and `before`
/// those of its items with lower ids.
#[inline(never)]
pub(crate) fn cut_row(
    draw: Draw,
    tiv: u64,
    totals: &[u64],
    before: &[u64],
    losses: &[u64],
    row: &mut [u64],
)
    requires value { tiv ≤ 10 ^ 14 }
    requires totals { length totals.now ≡ length row.old }
    requires before { length before.now ≡ length row.old }
    requires losses { length losses.now ≡ length row.old }
    requires within { (place : ℕ) → place < length row.old → slice_index before.now place + slice_index losses.now place ≤ slice_index totals.now place }
    ensures value { IsRow (λ place. final_loss draw.cut tiv (slice_index totals.now place) (slice_index before.now place) (slice_index losses.now place) place) (length row.old) row.new }
{
    for place in 0..row.len() {
        row[place] = final_loss(
            draw.cut,
            tiv,
            totals[place],
            before[place],
            losses[place],
            place,
        );
    }
}
