//! Decimals: digits, a point and an exponent, rounded half up once to the units of a scale.
//! The rule: docs/TABLES.md, "Numbers in a text".

ghost use Rattle.std.specs.Prelude.{◌≡◌, ◌⊎◌, ◌<◌, ◌≤◌, ◌^◌, Ok, IfSome, min};
ghost use Rattle.kt_text.specs.Numbers.{decimal_value, amount_of, digits_of, within_limit, worthy_fraction};
ghost use Rattle.std.specs.Str.Parse.{AllDigits, digits_value};

use crate::bad_text::BadText;
use crate::digits::{TOO_MANY, capped_value};
use crate::front_number::front_amount;
use crate::scaling::scaled;
use crate::trimming::{trim_blanks, trim_plus, trim_zeros};
use fast_float::Numeral;

// The least exponent that is too large, with either sign.
const TOO_FAR: u64 = 31;

// The largest amount.
const LIMIT: u64 = 100_000_000_000_000_000;

/// The amount that a text stands for, in units of 10^-`scale`: cents at scale 2, ppm at scale 6.
///
/// The text is digits with an optional point, after an optional plus and before an optional exponent;
/// spaces and tabs at both ends are not regarded. The value is rounded half up, once. `NotANumber`
/// where anything else stands there; then `TooManyDigits` where more than 18 digits are left without
/// the fraction's trailing zeros and then the leading zeros; then `ExponentRange` where the exponent
/// is not from -30 to 30; then `TooLarge` where the rounded amount is above 10^17. An error is the first of these that
/// holds; no memory is taken.
pub fn read_decimal(text: &[u8], scale: u8) -> Result<u64, BadText>
    requires { (scale ≡ 2) ⊎ (scale ≡ 6) }
    ensures { result ≡ decimal_value scale text.now }
{
    match front_amount(text, usize::from(scale)) {
        Some(number) if number.size == text.len() => Ok(number.value),
        _ => read_any_decimal(text, scale),
    }
}

// The amount that a text stands for, whatever stands there.
#[inline(never)]
#[tactic(auto, using(std::proofs::lemmas::Bool::Decides::nat_tests), unfolding(crate::specs::Numbers::decimal_value))]
fn read_any_decimal(text: &[u8], scale: u8) -> Result<u64, BadText>
    requires { scale < 7 }
    ensures { result ≡ decimal_value scale text.now }
{
    let number = trim_plus(trim_blanks(text));
    let numeral = Numeral::scan(number);
    if !numeral.has_digits() || numeral.len() < number.len() {
        return Err(BadText::NotANumber);
    }
    amount(&numeral, scale)
}

// The amount that the parts of a numeral write.
fn amount(numeral: &Numeral<'_>, scale: u8) -> Result<u64, BadText>
    requires { scale < 10 }
    ensures { result ≡ amount_of scale numeral.now }
{
    let fraction = trim_zeros(numeral.fraction());
    let digits = capped_digits(numeral, fraction);
    if digits == TOO_MANY {
        return Err(BadText::TooManyDigits);
    }
    let exponent = capped_value(0, numeral.exponent(), TOO_FAR);
    if exponent == TOO_FAR {
        return Err(BadText::ExponentRange);
    }
    let places = fraction.len() as u64;
    let negative = numeral.is_exponent_negative();
    limited(scaled(digits, u64::from(scale), places, exponent, negative))
}

// The number that the digits before and behind the point write, or 10^18 where that is less.
#[tactic(auto, using(crate::proofs::DigitLemmas::joined_digits))]
fn capped_digits(numeral: &Numeral<'_>, fraction: &[u8]) -> u64
    requires worthy { fraction.now ≡ worthy_fraction numeral.now }
    requires digits { AllDigits 10 fraction.now }
    ensures value { result ≡ min (digits_value 10 (digits_of numeral.now)) (10 ^ 18) }
    ensures digits { AllDigits 10 (digits_of numeral.now) }
{
    let whole = capped_value(0, numeral.whole(), TOO_MANY);
    capped_value(whole, fraction, TOO_MANY)
}

// The amount, unless it is above the limit.
fn limited(amount: u64) -> Result<u64, BadText>
    ensures { result ≡ within_limit amount }
{
    if amount > LIMIT {
        return Err(BadText::TooLarge);
    }
    Ok(amount)
}
