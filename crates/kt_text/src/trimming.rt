//! What is taken off the ends of a number text: blanks, a plus, and zeros that are worth nothing.
//! The rule: docs/TABLES.md, "Numbers in a text".

ghost use Rattle.std.specs.Prelude.{◌≡◌};
ghost use Rattle.std.specs.Str.Parse.{AllDigits};
ghost use Rattle.kt_text.specs.Trimming.{without_front, without_end, without_blanks, without_leading_plus, is_blank, is_zero_digit};

// A space or a tab.
fn is_blank_byte(byte: u8) -> bool
    ensures { result ≡ is_blank byte }
{
    byte == b' ' || byte == b'\t'
}

// The text without the blanks at its front.
fn without_leading_blanks(text: &[u8]) -> &[u8]
    ensures { result.now ≡ without_front is_blank text.now }
{
    let mut rest = text;
    while let [first, after @ ..] = rest {
        if !is_blank_byte(*first) {
            return rest;
        }
        rest = after;
    }
    rest
}

// The text without the blanks at its end.
fn without_trailing_blanks(text: &[u8]) -> &[u8]
    ensures { result.now ≡ without_end is_blank text.now }
{
    let mut rest = text;
    while let [before @ .., last] = rest {
        if !is_blank_byte(*last) {
            return rest;
        }
        rest = before;
    }
    rest
}

/// The text without the spaces and tabs at both its ends.
pub(crate) fn trim_blanks(text: &[u8]) -> &[u8]
    ensures { result.now ≡ without_blanks text.now }
{
    without_trailing_blanks(without_leading_blanks(text))
}

/// The text without one plus at its front.
pub(crate) fn trim_plus(text: &[u8]) -> &[u8]
    ensures { result.now ≡ without_leading_plus text.now }
{
    match text {
        [b'+', after @ ..] => after,
        _ => text,
    }
}

/// The digits of a fraction without the zeros at their end.
pub(crate) fn trim_zeros(fraction: &[u8]) -> &[u8]
    requires { AllDigits 10 fraction.now }
    ensures value { result.now ≡ without_end is_zero_digit fraction.now }
    ensures digits { AllDigits 10 result.now }
{
    let mut rest = fraction;
    while let [before @ .., last] = rest {
        if *last != b'0' {
            return rest;
        }
        rest = before;
    }
    rest
}
