//! The part of a total that falls to the first of weights.
//! The rule: docs/CALCULATION.md, "Share-out".
ghost use Rattle.std.specs.Prelude.{◌≡◌, ◌≤◌, ◌<◌, ◌/◌, ◌^◌, IsTrue, false};
ghost use Rattle.std.specs.Float.Ieee.{is_nan};
ghost use Rattle.kt_money.specs.Sharing.{share_to};

/// Whether a guess is `a / b`.
#[inline]
fn is_quotient(a: u128, b: u64, guess: u64) -> bool
    requires { 0 < b }
    ensures value { IsTrue result → a / b ≡ guess }
{
    let divisor = u128::from(b);
    let product = u128::from(guess) * divisor;
    product <= a && a - product < divisor
}

/// `a / b`, by a division of 128 bits. It stands apart, so that a loop that seldom divides does so only then.
#[cold]
#[inline(never)]
fn divided(a: u128, b: u64) -> u64
    requires positive { 0 < b }
    requires fits { a / b < 2 ^ 64 }
    ensures value { result ≡ a / b }
{
    (a / u128::from(b)) as u64
}

/// `a / b`. A guess is given that is nearly always right, and to test it takes a fifth of the time of a division of 128 bits.
#[inline]
fn quotient(a: u128, b: u64, guess: u64) -> u64
    requires positive { 0 < b }
    requires fits { a / b < 2 ^ 64 }
    ensures value { result ≡ a / b }
{
    if is_quotient(a, b, guess) {
        return guess;
    }
    divided(a, b)
}

/// A number below 2^53 as it is; of any other, some number.
#[inline]
fn float_of(n: u64) -> f64 {
    (n & 0x001f_ffff_ffff_ffff) as f64
}

/// 2^52, from which on a float has no part below one.
pub(crate) const LIFT: f64 = 4_503_599_627_370_496.0;

/// The greater of a number and 2^52, which is a number whatever is given.
#[inline]
fn at_least_lift(x: f64) -> f64
    ensures number { is_nan result ≡ false }
{
    if x > LIFT { x } else { LIFT }
}

/// A number from 0 to 2^51, to the nearest whole number; of any other, some number. Where 2^52 is added to it, the whole number
/// stands in its lowest 52 bits. Nothing branches.
#[inline]
fn nearest_whole(x: f64) -> u64 {
    at_least_lift(x + LIFT).to_bits() & 0x000f_ffff_ffff_ffff
}

/// What the part of a total is likely to be, from numbers that are rounded: one less than the whole number that is nearest to
/// somewhat more than a half above. A part that is whole comes out whole.
#[inline]
fn guess(total: u64, weights: u64, upto: u64) -> u64 {
    let product = float_of(total) * float_of(upto);
    nearest_whole(product / float_of(weights) + 0.501).wrapping_sub(1)
}

/// The part of a total in cents that falls to the first weights, rounded down, where it is told what it is likely to be. It is not above
/// the weights in all.
#[inline]
fn part_near(total: u64, weights: u64, upto: u64, likely: u64) -> u64
    requires most { total ≤ weights }
    requires bound { weights ≤ 10 ^ 16 }
    requires within { upto ≤ weights }
    ensures value { result ≡ share_to total weights upto }
{
    if weights == 0 {
        return 0;
    }
    quotient(u128::from(total) * u128::from(upto), weights, likely)
}

/// The part of a total in cents that falls to the first weights, rounded down. It is not above the weights in all.
#[inline]
pub(crate) fn part_to(total: u64, weights: u64, upto: u64) -> u64
    requires most { total ≤ weights }
    requires bound { weights ≤ 10 ^ 16 }
    requires within { upto ≤ weights }
    ensures value { result ≡ share_to total weights upto }
{
    part_near(total, weights, upto, guess(total, weights, upto))
}

/// The same, where the quotient of the total and the weights is given, nearly: where it is not, it takes longer.
#[inline]
pub(crate) fn part_by(total: u64, weights: u64, upto: u64, ratio: f64) -> u64
    requires most { total ≤ weights }
    requires bound { weights ≤ 10 ^ 16 }
    requires within { upto ≤ weights }
    ensures value { result ≡ share_to total weights upto }
{
    let likely = nearest_whole(float_of(upto) * ratio + 0.501).wrapping_sub(1);
    part_near(total, weights, upto, likely)
}
