//! What the parts of totals that fall to the first of weights are likely to be, four sidx at once. Of parts above 32 bits nothing is
//! said.
//! The rule: docs/CALCULATION.md, "Share-out".
ghost use Rattle.std.specs.Prelude.{◌≡◌, ◌≤◌, ◌<◌, ◌+◌, length};

use crate::quotient::LIFT;
use std::simd::cmp::SimdPartialOrd;
use std::simd::{Select, f64x4, u64x4};

/// So many parts are made at once.
pub(crate) const AT_ONCE: usize = 4;

/// How many numbers of 32 bits there are.
pub(crate) const NARROW: u64 = 4_294_967_296;

/// The bits of 2^52 as a float. A number of 52 bits in the lowest of them is added to it.
const LIFT_BITS: u64 = 0x4330_0000_0000_0000;

/// How many numbers of 52 bits there are.
const LIFTED: u64 = 4_503_599_627_370_496;

/// 2^33. Where it is added to a number of 32 bits and a fraction, that number stands in the bits of the sum above its fraction.
const RAISE: f64 = 8_589_934_592.0;

/// How many bits the fraction of such a sum has.
const FRACTION_BITS: u64 = 19;

/// The bits of the float that is 2^52 and a number of 52 bits; of any other, of some such float.
#[inline]
fn lifted_bits(n: u64) -> u64
    ensures number { result < 4845873199050653696 }
{
    n % LIFTED + LIFT_BITS
}

/// Four amounts of a lane, from a place on, as floats; for any of more than 52 bits, some number.
#[inline]
fn floats_of(lane: &[u64], at: usize) -> f64x4
    requires { at + 4 ≤ length lane.now }
{
    let bits = u64x4::from_array([
        lifted_bits(lane[at]),
        lifted_bits(lane[at + 1]),
        lifted_bits(lane[at + 2]),
        lifted_bits(lane[at + 3]),
    ]);
    f64x4::from_bits(bits) - f64x4::splat(LIFT)
}

/// The sums of four amounts of two lanes, from a place on, as floats; for any of more than 52 bits, some number.
#[inline]
fn floats_of_sums(first: &[u64], second: &[u64], at: usize) -> f64x4
    requires first { at + 4 ≤ length first.now }
    requires second { at + 4 ≤ length second.now }
{
    let bits = u64x4::from_array([
        lifted_bits(first[at].wrapping_add(second[at])),
        lifted_bits(first[at + 1].wrapping_add(second[at + 1])),
        lifted_bits(first[at + 2].wrapping_add(second[at + 2])),
        lifted_bits(first[at + 3].wrapping_add(second[at + 3])),
    ]);
    f64x4::from_bits(bits) - f64x4::splat(LIFT)
}

/// Numbers from 0 to 2^32, rounded down but where they are whole but for a millionth, and 0 for what is no number, as 0 divided by 0; of
/// any other, some number.
#[inline]
fn rounded_down(x: f64x4) -> u64x4 {
    let raise = f64x4::splat(RAISE);
    let raised = x + raise;
    let bits = raised.simd_gt(raise).select(raised, raise).to_bits();
    (bits >> u64x4::splat(FRACTION_BITS)) & u64x4::splat(NARROW - 1)
}

/// The quotients of four totals and of their weights, from a place on.
#[inline]
pub(crate) fn likely_ratios(totals: &[u64], weights: &[u64], at: usize) -> f64x4
    requires weights_wide { length weights.now ≡ length totals.now }
    requires within { at + 4 ≤ length totals.now }
{
    floats_of(totals, at) / floats_of(weights, at)
}

/// Four quotients of totals and weights, from a place on.
#[inline]
fn ratios_at(ratios: &[f64], at: usize) -> f64x4
    requires { at + 4 ≤ length ratios.now }
{
    f64x4::from_array([ratios[at], ratios[at + 1], ratios[at + 2], ratios[at + 3]])
}

/// What four parts that fall to the first children and one more are likely to be, by the quotients of totals and weights.
#[inline]
pub(crate) fn likely_parts(upto: &[u64], lane: &[u64], ratios: &[f64], at: usize) -> u64x4
    requires lane_wide { length lane.now ≡ length upto.now }
    requires ratios_wide { length ratios.now ≡ length upto.now }
    requires within { at + 4 ≤ length upto.now }
{
    rounded_down(floats_of_sums(upto, lane, at) * ratios_at(ratios, at))
}

/// What four parts that fall to the first of two children are likely to be: 0 of no weights.
#[inline]
pub(crate) fn likely_shares(totals: &[u64], first: &[u64], second: &[u64], at: usize) -> u64x4
    requires first_wide { length first.now ≡ length totals.now }
    requires second_wide { length second.now ≡ length totals.now }
    requires within { at + 4 ≤ length totals.now }
{
    rounded_down(floats_of(totals, at) * floats_of(first, at) / floats_of_sums(first, second, at))
}
