//! Quotients rounded to the nearest whole, halves up.
//! The rule: docs/CALCULATION.md, "Rounding".
ghost use Rattle.std.specs.Prelude.{◌≡◌, ◌/◌, ◌^◌, ◌<◌, ◌≤◌};
ghost use Rattle.kt_money.specs.Rounding.{half_up, ppm_part};

/// Parts per million in a whole.
const PPM: u128 = 1_000_000;

/// `a / b` to the nearest whole, halves up. Both are at most 2^126, and `b` is above 0.
pub fn div_half_up(a: u128, b: u128) -> u128
    requires dividend { a ≤ 2 ^ 126 }
    requires divisor { b ≤ 2 ^ 126 }
    requires nonzero { 0 < b }
    ensures value { result ≡ half_up a b }
{
    divide(2 * a + b, 2 * b)
}

/// The part of `x` that `f` parts per million are, to the nearest whole, halves up: of an amount in cents, whole cents.
pub fn ppm_of(x: u64, f: u32) -> u64
    requires amount { x ≤ 10 ^ 18 }
    requires factor { f ≤ 1000000 }
    ensures value { result ≡ ppm_part x f }
{
    div_half_up(u128::from(x) * u128::from(f), PPM) as u64
}

/// `a / b`, by the processor's own division where both fit 64 bits.
pub(crate) fn divide(a: u128, b: u128) -> u128
    requires { 0 < b }
    ensures value { result ≡ a / b }
{
    if a <= u128::from(u64::MAX) && b <= u128::from(u64::MAX) {
        u128::from(a as u64 / b as u64)
    } else {
        a / b
    }
}
