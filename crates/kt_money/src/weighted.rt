//! Mean and standard deviation of amounts with weights, from the sums of the weights and of what they weigh.
//! The rule: docs/CALCULATION.md, "Weighted mean and deviation".
ghost use Rattle.std.specs.Prelude.{◌≡◌, ◌+◌, ◌-◌, ◌*◌, ◌/◌, ◌^◌, ◌<◌, ◌≤◌};
ghost use Rattle.kt_money.specs.Rounding.{mean_of};
ghost use Rattle.kt_money.specs.Weighted.{weighted_deviation_of, weighted_variance_of, IsWeightedDeviation};

use crate::moments::{MeanSd, nearest};
use crate::quotient::divide;
use crate::square_root::isqrt;

/// Mean and standard deviation of `count` amounts of at most 10^15 cents, each with a weight: from the sum of the weights, `total`, the
/// sum of each weight times its amount, and `squares`, that of each weight times the square of its amount. The square of `total` is at
/// most `weights` times `squares`: `weighted_squares-sum-le` in `specs/WeightedLaws.antt`.
pub fn weighted_mean_sd(count: u64, weights: u64, total: u128, squares: u128) -> MeanSd
    requires some { 1 ≤ count }
    requires many { count ≤ 10 ^ 8 }
    requires weighed { 1 ≤ weights }
    requires most { weights ≤ 140000000 }
    requires total { total ≤ weights * 10 ^ 15 }
    requires squares { squares ≤ 14 * 10 ^ 37 }
    requires spread { total * total ≤ weights * squares }
    ensures mean { result.mean ≡ mean_of weights total }
    ensures deviation { result.sd ≡ weighted_deviation_of count weights total squares }
    ensures exact { IsWeightedDeviation count weights total squares result.sd }
{
    let whole = divide(total, u128::from(weights)) as u64;
    let rest = (total - u128::from(whole) * u128::from(weights)) as u64;
    MeanSd {
        mean: nearest(weights, whole, rest),
        sd: deviation(count, weights, whole, rest, squares),
    }
}

/// The deviation of `count` amounts, whose weighted sum is `whole * weights + rest`.
fn deviation(count: u64, weights: u64, whole: u64, rest: u64, squares: u128) -> u64
    requires many { count ≤ 10 ^ 8 }
    requires most { weights ≤ 140000000 }
    requires size { whole ≤ 10 ^ 15 }
    requires below { rest < weights }
    requires squares { squares ≤ 14 * 10 ^ 37 }
    requires spread { (whole * weights + rest) * (whole * weights + rest) ≤ weights * squares }
    ensures { result ≡ weighted_deviation_of count weights (whole * weights + rest) squares }
{
    if count <= 1 {
        0
    } else {
        isqrt(variance(count, weights, whole, rest, squares))
    }
}

/// The variance of several amounts, rounded down. With `total` for `whole * weights + rest`, `weights * squares - total * total` is
/// `weights * spread - rest * rest`, where `spread` is the sum of the squares with `whole` taken from each amount. So no product of
/// `weights` and `squares` is formed, and what is divided by `weights` alone is the square of the rest.
fn variance(count: u64, weights: u64, whole: u64, rest: u64, squares: u128) -> u128
    requires several { 1 < count }
    requires many { count ≤ 10 ^ 8 }
    requires most { weights ≤ 140000000 }
    requires size { whole ≤ 10 ^ 15 }
    requires below { rest < weights }
    requires squares { squares ≤ 14 * 10 ^ 37 }
    requires spread { (whole * weights + rest) * (whole * weights + rest) ≤ weights * squares }
    ensures { result ≡ weighted_variance_of count weights (whole * weights + rest) squares }
{
    let mean = u128::from(whole);
    let over = u128::from(rest);
    let total = mean * u128::from(weights) + over;
    let spread = squares - mean * (total + over);
    let lost = (u128::from(count) * over * over + u128::from(weights - 1)) / u128::from(weights);
    quotient_of_many(
        count,
        spread,
        lost,
        u128::from(weights) * u128::from(count - 1),
    )
}

/// `(count * spread - lost) / divisor`, without the product.
fn quotient_of_many(count: u64, spread: u128, lost: u128, divisor: u128) -> u128
    requires several { 1 < count }
    requires many { count ≤ 10 ^ 8 }
    requires divisor { count - 1 ≤ divisor }
    requires few { divisor ≤ 10 ^ 17 }
    requires spread { spread ≤ 14 * 10 ^ 37 }
    requires small { lost ≤ 10 ^ 30 }
    requires within { lost ≤ count * spread }
    ensures { result ≡ (count * spread - lost) / divisor }
{
    let times = divide(spread, divisor);
    let left = u128::from(count) * (spread - times * divisor);
    let even = u128::from(count) * times;
    if lost <= left {
        even + divide(left - lost, divisor)
    } else {
        even - divide(lost - left + (divisor - 1), divisor)
    }
}
