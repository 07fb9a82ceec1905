//! The parts of totals that fall to the first children and one more, a lane at a time, and the share of that one.
//! The rule: docs/CALCULATION.md, "Share-out".
ghost use Rattle.std.specs.Prelude.{◌≡◌, ℕ, ◌+◌, ◌-◌, ◌<◌, ◌≤◌, ◌^◌, length, slice_index};
ghost use Rattle.kt_money.specs.Sharing.{share_to};
ghost use Rattle.kt_lanes.specs.Lanes.{IsLane};
ghost use Rattle.kt_lanes.specs.Shares.{weight_or_one, less_wrapped, ArePaid, CanPart, CanPay};

use crate::lane::add_to;
use crate::likely::{AT_ONCE, NARROW, likely_parts, likely_ratios};
use crate::quotient::part_by;
use crate::tested::{at_least_one, wrong_by};

/// Puts 1 in the place of each of weights that is 0. Below 2^32 only where all of them have 32 bits at most.
pub(crate) fn fill_weights(weights: &mut [u64]) -> u64
    ensures weights { IsLane (length weights.old) (λ k. weight_or_one (slice_index weights.old k)) weights.new }
    ensures narrow { result < 2 ^ 32 → (k : ℕ) → k < length weights.old → weight_or_one (slice_index weights.old k) < 2 ^ 32 }
{
    let mut bits = 0;
    for k in 0..weights.len() {
        let weight = at_least_one(weights[k]);
        weights[k] = weight;
        bits |= weight;
    }
    bits
}

/// Puts the quotients of totals in cents and of their weights in the place of what a lane has, four at once: the last four last, some of
/// them again. Where there are fewer, none is put.
pub(crate) fn find_ratios(totals: &[u64], weights: &[u64], ratios: &mut [f64])
    requires weights_wide { length weights.now ≡ length totals.now }
    requires ratios_wide { length ratios.old ≡ length totals.now }
    ensures ratios_wide { length ratios.new ≡ length ratios.old }
{
    if totals.len() < AT_ONCE {
        return;
    }
    let last = totals.len() - AT_ONCE;
    let mut at = 0;
    while at < last {
        likely_ratios(totals, weights, at).copy_to_slice(&mut ratios[at..]);
        at += AT_ONCE;
    }
    likely_ratios(totals, weights, last).copy_to_slice(&mut ratios[last..]);
}

/// Puts what the first children and one more are likely to be due in the place of what a lane has, four at once: the last four last,
/// some of them again. There are four at least.
fn guess_due(upto: &[u64], lane: &[u64], ratios: &[f64], due: &mut [u64])
    requires enough { 4 ≤ length upto.now }
    requires lane_wide { length lane.now ≡ length upto.now }
    requires ratios_wide { length ratios.now ≡ length upto.now }
    requires due_wide { length due.old ≡ length upto.now }
    ensures wide { length due.new ≡ length due.old }
{
    let last = upto.len() - AT_ONCE;
    let mut at = 0;
    while at < last {
        likely_parts(upto, lane, ratios, at).copy_to_slice(&mut due[at..]);
        at += AT_ONCE;
    }
    likely_parts(upto, lane, ratios, last).copy_to_slice(&mut due[last..]);
}

/// Counts one more child among the first, and puts what was not paid of what these are likely to be due in the place of what they were
/// paid. Below 2^32 only where this is what they are due of totals in cents. The weights have 32 bits at most.
fn share_likely(
    totals: &[u64],
    weights: &[u64],
    lane: &[u64],
    due: &[u64],
    upto: &mut [u64],
    paid: &mut [u64],
) -> u64
    requires can { CanPay totals.now weights.now upto.old lane.now paid.old }
    requires due_wide { length due.now ≡ length totals.now }
    requires narrow { (k : ℕ) → k < length totals.now → slice_index weights.now k < 2 ^ 32 }
    ensures upto { IsLane (length totals.now) (λ k. slice_index upto.old k + slice_index lane.now k) upto.new }
    ensures share { IsLane (length totals.now) (λ k. less_wrapped (slice_index due.now k) (slice_index paid.old k)) paid.new }
    ensures value { result < 2 ^ 32 → (k : ℕ) → k < length totals.now → slice_index due.now k ≡ share_to (slice_index totals.now k) (slice_index weights.now k) (slice_index upto.old k + slice_index lane.now k) }
{
    let mut wrong = 0;
    for k in 0..totals.len() {
        let given = upto[k] + lane[k];
        let part = due[k];
        wrong |= wrong_by(totals[k], weights[k], given, part);
        upto[k] = given;
        paid[k] = part.wrapping_sub(paid[k]);
    }
    wrong
}

/// Puts what was paid in the place of what was not paid of a lane.
fn take_back(due: &[u64], paid: &mut [u64])
    requires same { length due.now ≡ length paid.old }
    ensures value { IsLane (length paid.old) (λ k. less_wrapped (slice_index due.now k) (slice_index paid.old k)) paid.new }
{
    for k in 0..paid.len() {
        paid[k] = due[k].wrapping_sub(paid[k]);
    }
}

/// Puts what the first weights are due of totals in cents in the place of what a lane has, one by one, and what was not paid of it in the
/// place of what was.
fn share_divided(
    totals: &[u64],
    weights: &[u64],
    ratios: &[f64],
    upto: &[u64],
    paid: &mut [u64],
    due: &mut [u64],
)
    requires can { CanPart totals.now weights.now upto.now }
    requires ratios_wide { length ratios.now ≡ length totals.now }
    requires paid_wide { length paid.old ≡ length totals.now }
    requires due_wide { length due.old ≡ length totals.now }
    requires few { (k : ℕ) → k < length totals.now → slice_index paid.old k ≤ share_to (slice_index totals.now k) (slice_index weights.now k) (slice_index upto.now k) }
    ensures due { IsLane (length totals.now) (λ k. share_to (slice_index totals.now k) (slice_index weights.now k) (slice_index upto.now k)) due.new }
    ensures share { IsLane (length totals.now) (λ k. share_to (slice_index totals.now k) (slice_index weights.now k) (slice_index upto.now k) - slice_index paid.old k) paid.new }
{
    for k in 0..totals.len() {
        let part = part_by(totals[k], weights[k], upto[k], ratios[k]);
        paid[k] = part - paid[k];
        due[k] = part;
    }
}

/// Counts one more child among the first. Puts what these are due of totals in cents in the place of what a lane has, and the share of that
/// child in the place of what the others were paid. Where weights have more than 32 bits, or a guess is wrong, what is due is
/// divided one by one.
pub(crate) fn share_next(
    totals: &[u64],
    weights: &[u64],
    ratios: &[f64],
    bits: u64,
    lane: &[u64],
    upto: &mut [u64],
    paid: &mut [u64],
    due: &mut [u64],
)
    requires can { CanPay totals.now weights.now upto.old lane.now paid.old }
    requires ratios_wide { length ratios.now ≡ length totals.now }
    requires due_wide { length due.old ≡ length totals.now }
    requires narrow { bits < 2 ^ 32 → (k : ℕ) → k < length totals.now → slice_index weights.now k < 2 ^ 32 }
    ensures value { ArePaid totals.now weights.now upto.old lane.now paid.old upto.new due.new paid.new }
{
    if bits >= NARROW || totals.len() < AT_ONCE {
        add_to(upto, lane);
        share_divided(totals, weights, ratios, upto, paid, due);
        return;
    }
    guess_due(upto, lane, ratios, due);
    if share_likely(totals, weights, lane, due, upto, paid) < NARROW {
        return;
    }
    take_back(due, paid);
    share_divided(totals, weights, ratios, upto, paid, due);
}
