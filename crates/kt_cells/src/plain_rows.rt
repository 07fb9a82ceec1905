//! The row at the front of a text, if its fields stand there without quotes.
//! The rule: docs/TABLES.md, "Texts of tables".
ghost use Rattle.std.specs.Prelude.{◌≡◌, ◌<◌, ◌≤◌, ◌+◌, ◌++◌, ◌==◌, ℕ, List, false, IfSome, length};
ghost use Rattle.kt_cells.specs.Fronts.{PlainRead};
ghost use Rattle.kt_cells.specs.Taking.{HasRow};

use crate::front_value::{front_field, plain_field};
use crate::reader::rule_after;
use kt_rec::Kind;
use kt_text::{fields_stay_fields, first_field};

/// Rows of so many columns are read and written without a loop, so that the kind of each column is known where its field is.
pub(crate) const SHORT: usize = 5;

// How far a row of a text is read: the rule by which the rest of it is read, and the text that is left.
#[derive(Clone, Copy)]
struct RowFront<'a> {
    rule: u64,
    rest: &'a [u8],
}

// Reads the field of one more column, if plain digits write its value and it is not below `least`.
#[inline(always)]
fn with_field<'a, const N: usize>(
    front: RowFront<'a>,
    kinds: &[Kind; N],
    column: usize,
    least: u64,
    values: &mut [u64; N],
) -> Option<RowFront<'a>>
    requires size { N < 100 }
    requires column { column < N }
    ensures read { (floor : ℕ) (text more : List ℕ) → PlainRead kinds.now floor text values.old column front.entry.rule least false (front.entry.rest.now ++ more) → IfSome result (λ next. PlainRead kinds.now floor text values.new (column + 1) next.rule 0 (column + 1 == N) (next.rest.now ++ more)) }
    ensures shorter { IfSome result (λ next. length next.rest.now ≤ length front.entry.rest.now) }
{
    fields_stay_fields();
    let kind = kinds[column];
    let is_last = column + 1 == N;
    let field = plain_field(kind.under(front.rule), front.rest, is_last)?;
    if field.value < least {
        return None;
    }
    values[column] = field.value;
    Some(RowFront {
        rule: rule_after(front.rule, kind, field.value),
        rest: field.rest,
    })
}

// The next row of a text with few columns, if plain digits write its values. Where the kinds are a constant, as those of each table are,
// this code is copied for them, and they are known in it: the compiler drops `inline(always)` with no message where a function would grow very large, so that all that is
// copied has to stay small.
#[inline(always)]
fn short_row<'a, const N: usize>(
    text: &'a [u8],
    kinds: &[Kind; N],
    floor: u64,
    values: &mut [u64; N],
) -> Option<&'a [u8]>
    requires some { 0 < N }
    requires few { N ≤ 5 }
    ensures row { IfSome result (λ rest. (more : List ℕ) → HasRow kinds.now floor (text.now ++ more) values.new (rest.now ++ more)) }
    ensures shorter { IfSome result (λ rest. length rest.now < length text.now) }
{
    let rest = first_field(text)?;
    let start = RowFront { rule: 0, rest };
    let first = with_field(start, kinds, 0, floor, values)?;
    if N == 1 {
        return Some(first.rest);
    }
    let second = with_field(first, kinds, 1, 0, values)?;
    if N == 2 {
        return Some(second.rest);
    }
    let third = with_field(second, kinds, 2, 0, values)?;
    if N == 3 {
        return Some(third.rest);
    }
    let fourth = with_field(third, kinds, 3, 0, values)?;
    if N == 4 {
        return Some(fourth.rest);
    }
    let fifth = with_field(fourth, kinds, 4, 0, values)?;
    Some(fifth.rest)
}

// The next row of a text with any number of columns, whatever writes its values.
#[inline(never)]
fn long_row<'a, const N: usize>(
    text: &'a [u8],
    kinds: &[Kind; N],
    floor: u64,
    values: &mut [u64; N],
) -> Option<&'a [u8]>
    requires size { N < 100 }
    requires some { 0 < N }
    ensures row { IfSome result (λ rest. (more : List ℕ) → HasRow kinds.now floor (text.now ++ more) values.new (rest.now ++ more)) }
    ensures shorter { IfSome result (λ rest. length rest.now < length text.now) }
{
    fields_stay_fields();
    let mut rest = first_field(text)?;
    let mut rule = 0;
    let mut least = floor;
    for (column, kind) in kinds.iter().enumerate() {
        let is_last = column + 1 == N;
        let field = front_field(kind.under(rule), rest, is_last)?;
        if field.value < least {
            return None;
        }
        rest = field.rest;
        values[column] = field.value;
        rule = rule_after(rule, *kind, field.value);
        least = 0;
    }
    Some(rest)
}

// The same, into a copy of the values: what a function that is called could hold is known no longer where the row is read without it.
#[inline(always)]
fn any_row<'a, const N: usize>(
    text: &'a [u8],
    kinds: &[Kind; N],
    floor: u64,
    values: &mut [u64; N],
) -> Option<&'a [u8]>
    requires size { N < 100 }
    requires some { 0 < N }
    ensures row { IfSome result (λ rest. (more : List ℕ) → HasRow kinds.now floor (text.now ++ more) values.new (rest.now ++ more)) }
    ensures shorter { IfSome result (λ rest. length rest.now < length text.now) }
{
    let mut found = *values;
    let rest = long_row(text, kinds, floor, &mut found)?;
    *values = found;
    Some(rest)
}

/// Reads the values of the next row of a text, if its fields stand there without quotes and each has a value that is none of
/// its refusals, and gives the text from the end of its line on: all other rows are for the reader of records. The row is the
/// same whatever follows the text.
#[inline(always)]
pub(crate) fn plain_row<'a, const N: usize>(
    text: &'a [u8],
    kinds: &[Kind; N],
    floor: u64,
    values: &mut [u64; N],
) -> Option<&'a [u8]>
    requires size { N < 100 }
    requires some { 0 < N }
    ensures row { IfSome result (λ rest. (more : List ℕ) → HasRow kinds.now floor (text.now ++ more) values.new (rest.now ++ more)) }
    ensures shorter { IfSome result (λ rest. length rest.now < length text.now) }
{
    if N <= SHORT {
        if let Some(rest) = short_row(text, kinds, floor, values) {
            return Some(rest);
        }
    }
    any_row(text, kinds, floor, values)
}
