//! The digits at the front of a text.
//! The rule: docs/TABLES.md, "Numbers in a text".

ghost use Rattle.std.specs.Prelude.{◌≡◌, ◌≤◌, ◌<◌, ◌^◌, length, min, take};
ghost use Rattle.std.specs.Str.Parse.{AllDigits, digits_value};
ghost use Rattle.kt_text.specs.PlainText.{digits_before};

/// As many digits as a number has at most: their value fits 64 bits.
const MOST: usize = 18;

/// The digits at the front of a text.
#[derive(Clone, Copy)]
pub(crate) struct FrontDigits {
    /// How many there are, at most 18.
    pub(crate) count: usize,
    /// The number that they write.
    pub(crate) value: u64,
}

/// The digits at the front of a text, the first 18 where there are more.
#[inline(always)]
pub(crate) fn front_digits(text: &[u8]) -> FrontDigits
    ensures within { result.count ≤ length text.now }
    ensures few { result.count ≤ 18 }
    ensures digits { AllDigits 10 (take result.count text.now) }
    ensures bound { result.value < 10 ^ result.count }
    ensures value { result.value ≡ digits_value 10 (take result.count text.now) }
    ensures all { result.count ≡ min (digits_before text.now) 18 }
{
    let mut value = 0;
    for (count, byte) in text.iter().enumerate() {
        if count == MOST || !byte.is_ascii_digit() {
            return FrontDigits { count, value };
        }
        value = value * 10 + u64::from(*byte - b'0');
    }
    FrontDigits {
        count: text.len(),
        value,
    }
}
