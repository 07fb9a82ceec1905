//! Counts: digits alone.
//! The rule: docs/TABLES.md, "Numbers in a text".

ghost use Rattle.std.specs.Prelude.{◌≡◌};
ghost use Rattle.std.specs.Char.{is_ascii_digit};
ghost use Rattle.std.specs.List.{list_all};
ghost use Rattle.kt_text.specs.Numbers.{count_value, are_digits as all_digits};

use crate::bad_text::BadText;
use crate::digits::{TOO_MANY, capped_value};
use crate::front_number::front_count;
use crate::trimming::trim_blanks;

/// The count that a text stands for: digits alone, blanks at both ends not regarded.
///
/// `NotANumber` where anything else stands there, then `TooManyDigits` where more than 18 digits are
/// left without the leading zeros. An error is the first of these that holds; no memory is taken.
pub fn read_count(text: &[u8]) -> Result<u64, BadText>
    ensures { result ≡ count_value text.now }
{
    match front_count(text) {
        Some(number) if number.size == text.len() => Ok(number.value),
        _ => read_any_count(text),
    }
}

// The count that a text stands for, whatever stands there.
#[inline(never)]
#[tactic(auto, using(crate::proofs::ValueLemmas::count_cases))]
fn read_any_count(text: &[u8]) -> Result<u64, BadText>
    ensures { result ≡ count_value text.now }
{
    let digits = trim_blanks(text);
    if !are_digits(digits) {
        return Err(BadText::NotANumber);
    }
    let value = capped_value(0, digits, TOO_MANY);
    if value == TOO_MANY {
        return Err(BadText::TooManyDigits);
    }
    Ok(value)
}

// One digit or more, and nothing else.
fn are_digits(text: &[u8]) -> bool
    ensures { result ≡ all_digits text.now }
{
    !text.is_empty() && has_only_digits(text)
}

// Nothing but digits, if anything.
fn has_only_digits(text: &[u8]) -> bool
    ensures { result ≡ list_all is_ascii_digit text.now }
{
    text.iter().all(|byte| byte.is_ascii_digit())
}
