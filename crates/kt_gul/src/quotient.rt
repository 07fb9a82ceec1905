//! Quotients of wide numbers by numbers of 64 bits, where the quotient has 64 bits too.
//! The rule: docs/CALCULATION.md, "Rounding".
ghost use Rattle.std.specs.Prelude.{◌≡◌, ◌↔◌, ◌/◌, ◌^◌, ◌<◌, IsTrue};

/// `a / b`. A guess is given that is nearly always right, and to test it takes a third of the time of a division of 128 bits.
#[inline]
pub(crate) fn quotient(a: u128, b: u64, guess: u64) -> u64
    requires positive { 0 < b }
    requires fits { a / b < 2 ^ 64 }
    ensures value { result ≡ a / b }
{
    if is_quotient(a, b, guess) {
        return guess;
    }
    (a / u128::from(b)) as u64
}

/// Whether a guess is `a / b`.
#[inline]
fn is_quotient(a: u128, b: u64, guess: u64) -> bool
    requires { 0 < b }
    ensures value { IsTrue result → a / b ≡ guess }
{
    let divisor = u128::from(b);
    let product = u128::from(guess) * divisor;
    product <= a && a - product < divisor
}
