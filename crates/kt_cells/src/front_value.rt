//! The value that the text of a field gives, and the field at the front of a text: its value, and what stands behind it.
//! The rule: docs/TABLES.md, "Texts of tables".
ghost use Rattle.std.specs.Prelude.{◌≡◌, ◌≤◌, Ok, IfSome, length, take};
ghost use Rattle.kt_text.specs.PlainText.{IsField};
ghost use Rattle.kt_rec.specs.Kinds.{decimals};
ghost use Rattle.kt_cells.specs.Texts.{number_in, text_value};
ghost use Rattle.kt_cells.specs.Fronts.{ReadsField};

use crate::stop::cause_of_text;
use kt_rec::{Cause, Kind};
use kt_text::{
    BadText, FrontNumber, behind_field, field_length, front_amount, front_count, read_count,
    read_decimal,
};

/// The value that the text of a field gives.
#[tactic(auto, unfolding(crate::specs::Texts::text_value))]
pub(crate) fn value_of(kind: Kind, text: &[u8]) -> Result<u64, Cause>
    ensures { result ≡ text_value kind text.now }
{
    match number_of(kind, text) {
        Ok(value) => kind.in_range(value),
        Err(bad) => Err(cause_of_text(bad)),
    }
}

// The number that the text of a field stands for.
fn number_of(kind: Kind, text: &[u8]) -> Result<u64, BadText>
    ensures { result ≡ number_in (decimals kind) text.now }
{
    match kind {
        Kind::Tiv | Kind::Amount | Kind::Term(_) => read_decimal(text, 2),
        Kind::Ppm => read_decimal(text, 6),
        _ => read_count(text),
    }
}

// The number at the front of a text, in the units of a kind, if plain digits write it.
#[inline(always)]
fn front_number(kind: Kind, text: &[u8]) -> Option<FrontNumber>
    ensures within { IfSome result (λ number. number.size ≤ length text.now) }
    ensures field { IfSome result (λ number. IsField text.now number.size) }
    ensures value { IfSome result (λ number. number_in (decimals kind) (take number.size text.now) ≡ Ok number.value) }
{
    let scale = kind.decimals();
    if scale > 0 {
        return front_amount(text, scale);
    }
    front_count(text)
}

/// A field at the front of a text.
#[derive(Clone, Copy)]
pub(crate) struct FrontField<'a> {
    /// Its value.
    pub(crate) value: u64,
    /// What stands behind it: the next field, or the text from the end of the line on.
    pub(crate) rest: &'a [u8],
}

/// The field at the front of a text, if plain digits write its value.
#[inline(always)]
pub(crate) fn plain_field(kind: Kind, text: &[u8], is_last: bool) -> Option<FrontField<'_>>
    ensures field { IfSome result (λ field. ReadsField kind is_last text.now field.rest.now field.value) }
    ensures shorter { IfSome result (λ field. length field.rest.now ≤ length text.now) }
{
    let number = front_number(kind, text)?;
    let rest = behind_field(&text[number.size..], is_last)?;
    let value = number.value;
    if kind.holds(value) {
        Some(FrontField { value, rest })
    } else {
        None
    }
}

// The same, whatever writes the value.
#[inline(never)]
fn any_field(kind: Kind, text: &[u8], is_last: bool) -> Option<FrontField<'_>>
    ensures field { IfSome result (λ field. ReadsField kind is_last text.now field.rest.now field.value) }
    ensures shorter { IfSome result (λ field. length field.rest.now ≤ length text.now) }
{
    let size = field_length(text);
    let rest = behind_field(&text[size..], is_last)?;
    match value_of(kind, &text[..size]) {
        Ok(value) => Some(FrontField { value, rest }),
        Err(_) => None,
    }
}

/// The field at the front of a text, if it has no quotes, ends as the last one of a row, or as another, does, and its value is one
/// of the kind.
#[inline(always)]
pub(crate) fn front_field(kind: Kind, text: &[u8], is_last: bool) -> Option<FrontField<'_>>
    ensures field { IfSome result (λ field. ReadsField kind is_last text.now field.rest.now field.value) }
    ensures shorter { IfSome result (λ field. length field.rest.now ≤ length text.now) }
{
    match plain_field(kind, text, is_last) {
        Some(field) => Some(field),
        None => any_field(kind, text, is_last),
    }
}
