//! Whole square roots.
//! The rule: docs/CALCULATION.md, "Mean and deviation".
ghost use Rattle.std.specs.Prelude.{◌≡◌, ◌↔◌, IsTrue};
ghost use Rattle.kt_money.specs.Rounding.{root, IsRoot};

use std::num::{nearest_u64_to_f64, saturating_f64_to_u64};

/// The greatest whole number whose square is at most `x`.
pub fn isqrt(x: u128) -> u64
    ensures value { result ≡ root x }
    ensures exact { IsRoot x result }
{
    let guess = saturating_f64_to_u64(nearest_f64(x).sqrt());
    if is_root(x, guess) {
        return guess;
    }
    let nearer = improved(x, guess);
    if is_root(x, nearer) {
        return nearer;
    }
    x.isqrt() as u64
}

/// Whether `x` lies from the square of `guess` up to, but not including, the next square.
fn is_root(x: u128, guess: u64) -> bool
    ensures value { IsTrue result ↔ IsRoot x guess }
{
    let guess = u128::from(guess);
    guess * guess <= x && x - guess * guess <= 2 * guess
}

/// A guess nearer to the root, by one step of Newton's method from the exact square.
fn improved(x: u128, guess: u64) -> u64 {
    let square = u128::from(guess) * u128::from(guess);
    let slope = 2.0 * nearest_u64_to_f64(guess);
    if square <= x {
        guess.saturating_add(saturating_f64_to_u64(nearest_f64(x - square) / slope))
    } else {
        let above = saturating_f64_to_u64(nearest_f64(square - x) / slope);
        guess.saturating_sub(above.saturating_add(1))
    }
}

/// `x` as a float, near enough for a guess.
fn nearest_f64(x: u128) -> f64 {
    const TWO_TO_64: f64 = 18446744073709551616.0;
    let high = (x >> 64) as u64;
    let low = (x & u128::from(u64::MAX)) as u64;
    nearest_u64_to_f64(high) * TWO_TO_64 + nearest_u64_to_f64(low)
}
