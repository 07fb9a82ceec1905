//! The number at the front of a text, in digits with or without decimals: what nearly every field of a table is.
//! The rule: docs/TABLES.md, "Numbers in a text".

ghost use Rattle.std.specs.Prelude.{◌≡◌, ◌≤◌, ◌<◌, ◌^◌, ◌+◌, ◌-◌, ◌*◌, ◌⊎◌, Ok, length, min, take, drop, IfSome, IfNone};
ghost use Rattle.kt_text.specs.Numbers.{count_value, decimal_value};
ghost use Rattle.kt_text.specs.PlainText.{IsField, LacksDecimals, digits_before, begins_with_point as point_begins};

use crate::front_digits::{FrontDigits, front_digits};

// A whole part of so many digits is below the limit in the units of each scale.
const MOST_WHOLE: usize = 11;

/// A number at the front of a text, and how many bytes write it.
#[derive(Clone, Copy)]
pub struct FrontNumber {
    /// How many bytes write it, at least one.
    pub size: usize,
    /// The number: a count, or an amount in the units of a scale.
    pub value: u64,
}

/// The count that the digits at the front of a text write, the first 18 where there are more. What stands behind them may
/// still belong to their field.
#[inline(always)]
#[tactic(auto, using(crate::proofs::PlainLemmas::front_counts, crate::proofs::PlainRowLemmas::front_fields))]
pub fn front_count(text: &[u8]) -> Option<FrontNumber>
    ensures within { IfSome result (λ number. number.size ≤ length text.now) }
    ensures field { IfSome result (λ number. IsField text.now number.size) }
    ensures value { IfSome result (λ number. count_value (take number.size text.now) ≡ Ok number.value) }
    ensures all { IfSome result (λ number. number.size ≡ min (digits_before text.now) 18) }

    // There is none where no digit stands at the front.
    ensures none { IfNone result (digits_before text.now ≡ 0) }
{
    let digits = front_digits(text);
    if digits.count == 0 {
        return None;
    }
    Some(FrontNumber {
        size: digits.count,
        value: digits.value,
    })
}

/// The amount, in units of 10^-`scale`, that digits at the front of a text write, with at most as many decimals as the
/// scale has. What stands behind them may still belong to their field.
#[inline(never)]
pub fn front_amount(text: &[u8], scale: usize) -> Option<FrontNumber>
    requires { (scale ≡ 2) ⊎ (scale ≡ 6) }
    ensures within { IfSome result (λ number. number.size ≤ length text.now) }
    ensures field { IfSome result (λ number. IsField text.now number.size) }
    ensures value { IfSome result (λ number. decimal_value scale (take number.size text.now) ≡ Ok number.value) }

    // There is none where no digit stands at the front, or more than 11, or a point without decimals or with too many.
    ensures none { IfNone result ((digits_before text.now ≡ 0) ⊎ ((11 < digits_before text.now) ⊎ LacksDecimals scale text.now)) }
{
    let whole = front_digits(text);
    if whole.count == 0 || whole.count > MOST_WHOLE {
        return None;
    }
    if !begins_with_point(&text[whole.count..]) {
        return Some(FrontNumber {
            size: whole.count,
            value: in_units(whole, FrontDigits { count: 0, value: 0 }, scale),
        });
    }
    let fraction = front_digits(&text[whole.count + 1..]);
    if fraction.count == 0 || fraction.count > scale {
        return None;
    }
    Some(FrontNumber {
        size: whole.count + (1 + fraction.count),
        value: in_units(whole, fraction, scale),
    })
}

// What the digits before and behind a point are, in units of 10^-`scale`.
#[inline(always)]
fn in_units(whole: FrontDigits, fraction: FrontDigits, scale: usize) -> u64
    requires scale { scale < 7 }
    requires few { whole.count ≤ 11 }
    requires whole { whole.value < 10 ^ whole.count }
    requires short { fraction.count ≤ scale }
    requires fraction { fraction.value < 10 ^ fraction.count }
    ensures value { result ≡ whole.value * 10 ^ scale + fraction.value * 10 ^ (scale - fraction.count) }
    ensures limit { result ≤ 10 ^ 17 }
{
    whole.value * ten_to(scale) + fraction.value * ten_to(scale - fraction.count)
}

// Whether a text begins with a point.
fn begins_with_point(text: &[u8]) -> bool
    ensures { result ≡ point_begins text.now }
{
    match text {
        [first, ..] => *first == b'.',
        _ => false,
    }
}

// A power of ten.
#[inline(always)]
fn ten_to(places: usize) -> u64
    requires { places < 7 }
    ensures value { result ≡ 10 ^ places }
    ensures bound { result ≤ 1000000 }
{
    match places {
        0 => 1,
        1 => 10,
        2 => 100,
        3 => 1_000,
        4 => 10_000,
        5 => 100_000,
        _ => 1_000_000,
    }
}
