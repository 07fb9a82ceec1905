//! Mean and standard deviation, from a count, a sum and a sum of squares.
//! The rule: docs/CALCULATION.md, "Mean and deviation".
ghost use Rattle.std.specs.Prelude.{◌≡◌, ◌+◌, ◌-◌, ◌*◌, ◌/◌, ◌^◌, ◌<◌, ◌≤◌};
ghost use Rattle.kt_money.specs.Rounding.{half_up, mean_of, deviation_of, IsDeviation};

use crate::quotient::divide;
use crate::square_root::isqrt;

/// Mean and standard deviation of some amounts, in cents.
#[derive(Clone, Copy)]
pub struct MeanSd {
    /// The mean, to the nearest cent, halves up.
    pub mean: u64,
    /// The standard deviation of a sample, rounded down; 0 of a single amount.
    pub sd: u64,
}

/// Mean and standard deviation of `n` amounts of at most 10^16 cents, from their sum and the sum of their squares.
/// The square of a sum is at most the count times the sum of the squares: `squares-sum-le` in `specs/RoundingLaws.antt`.
pub fn mean_sd(n: u64, sum: u128, sumsq: u128) -> MeanSd
    requires some { 1 ≤ n }
    requires count { n ≤ 10 ^ 8 }
    requires total { sum ≤ n * 10 ^ 16 }
    requires squares { sumsq ≤ 10 ^ 38 }
    requires spread { sum * sum ≤ n * sumsq }
    ensures mean { result.mean ≡ mean_of n sum }
    ensures deviation { result.sd ≡ deviation_of n sum sumsq }
    ensures exact { IsDeviation n sum sumsq result.sd }
{
    let whole = divide(sum, u128::from(n)) as u64;
    let rest = (sum - u128::from(whole) * u128::from(n)) as u64;
    MeanSd {
        mean: nearest(n, whole, rest),
        sd: deviation(n, whole, rest, sumsq),
    }
}

/// The mean of `n` amounts, whose sum is `whole * n + rest`.
pub(crate) fn nearest(n: u64, whole: u64, rest: u64) -> u64
    requires count { n ≤ 140000000 }
    requires size { whole ≤ 10 ^ 16 }
    requires below { rest < n }
    ensures { result ≡ mean_of n (whole * n + rest) }
{
    if 2 * rest < n { whole } else { whole + 1 }
}

/// The deviation of `n` amounts, whose sum is `whole * n + rest`.
fn deviation(n: u64, whole: u64, rest: u64, sumsq: u128) -> u64
    requires count { n ≤ 10 ^ 8 }
    requires size { whole ≤ 10 ^ 16 }
    requires below { rest < n }
    requires squares { sumsq ≤ 10 ^ 38 }
    requires spread { (whole * n + rest) * (whole * n + rest) ≤ n * sumsq }
    ensures { result ≡ deviation_of n (whole * n + rest) sumsq }
{
    if n == 1 {
        0
    } else {
        isqrt(variance(n, whole, rest, sumsq))
    }
}

/// The variance of several amounts, rounded down. With `sum` for `whole * n + rest`, `n * sumsq - sum * sum`
/// is `n * (sumsq - whole * (sum + rest)) - rest * rest`, and no product of `n` and `sumsq` is formed.
fn variance(n: u64, whole: u64, rest: u64, sumsq: u128) -> u128
    requires several { 1 < n }
    requires count { n ≤ 10 ^ 8 }
    requires size { whole ≤ 10 ^ 16 }
    requires below { rest < n }
    requires squares { sumsq ≤ 10 ^ 38 }
    requires spread { (whole * n + rest) * (whole * n + rest) ≤ n * sumsq }
    ensures { result ≡ (n * sumsq - (whole * n + rest) * (whole * n + rest)) / (n * (n - 1)) }
{
    let mean = u128::from(whole);
    let over = u128::from(rest);
    let sum = mean * u128::from(n) + over;
    let spread = sumsq - mean * (sum + over);
    let carried = (rest * rest + (n - 1)) / n;
    divide(spread - u128::from(carried), u128::from(n - 1))
}
