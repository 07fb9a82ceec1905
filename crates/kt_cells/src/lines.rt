//! Rows as lines of text.
//! The rule: docs/TABLES.md, "Texts of tables".
ghost use Rattle.std.specs.Prelude.{◌≡◌, ◌+◌, ◌-◌, ◌*◌, ◌<◌, ◌≤◌, ◌++◌, ℕ, List, Option, length, take, drop, min};
ghost use Rattle.kt_rec.specs.Lines.{line};
ghost use Rattle.kt_cells.specs.Lines.{IsFront, LineFrom, line_with, lines_with, units_under};
ghost use Rattle.kt_rec.specs.declared.kind.Kind.{Kind};
ghost use Rattle.kt_cells.specs.Texts.{row_texts, value_text};
ghost use Rattle.kt_cells.specs.declared.lines.TheConstants.{LINE_BYTES, ROWS};

use crate::plain_rows::SHORT;
use crate::reader::rule_after;
use itoa::write_digits;
use kt_money::write_plain;
use kt_rec::Kind;

/// So many bytes have room for the lines that are written at once, with a count in front of each, whatever the values are.
pub(crate) const LINE_BYTES: usize = 2_400;

/// At most so many rows are written at once.
pub(crate) const ROWS: usize = 16;

/// How many rows with so many columns are written at once.
#[inline(always)]
pub(crate) fn rows_at_once(columns: usize) -> usize
    requires { columns < 100 }
    ensures some { 1 ≤ result }
    ensures most { result ≤ ROWS }
    ensures room { result * (columns * 24 + 22) ≤ LINE_BYTES }
{
    if columns <= SHORT { ROWS } else { 1 }
}

// Writes the text of a value so that it ends at `end`, and returns where it starts: at most 23 bytes.
#[inline(always)]
fn write_value(kind: Kind, value: u64, text: &mut [u8], end: usize) -> usize
    requires room { 27 ≤ end }
    requires within { end ≤ length text.old }
    ensures start { result ≤ end }
    ensures short { end ≤ result + 23 }
    ensures written { drop result text.new ≡ value_text kind value ++ drop end text.old }
{
    match kind {
        Kind::Tiv | Kind::Amount | Kind::Term(_) => write_plain(value, 2, 100, text, end),
        Kind::Ppm => write_plain(value, 6, 1_000_000, text, end),
        _ => write_digits(value, text, end),
    }
}

// The kinds of a row, where a term is an amount or parts per million by the rule before it.
#[inline(always)]
fn units_of<const N: usize>(kinds: &[Kind; N], values: &[u64; N]) -> [Kind; N]
    requires { N < 100 }
    ensures { result ≡ units_under 0 kinds.now values.now }
{
    let mut units = *kinds;
    let mut rule = 0;
    for (column, kind) in kinds.iter().enumerate() {
        units[column] = kind.under(rule);
        rule = rule_after(rule, *kind, values[column]);
    }
    units
}

// Writes the field of a column, if the row has it, with its separator so that it ends at `end`, and returns where it starts.
#[inline(always)]
fn write_field<const N: usize>(
    units: &[Kind; N],
    values: &[u64; N],
    column: usize,
    text: &mut [u8; LINE_BYTES],
    end: usize,
) -> usize
    requires size { N < 100 }
    requires room { 27 ≤ end }
    requires within { end ≤ LINE_BYTES }
    ensures start { result ≤ end }
    ensures short { end + min N column * 24 ≤ result + min N (column + 1) * 24 }
    ensures line { (kinds : List Kind) (last : ℕ) (after : List ℕ) → units.now ≡ units_under 0 kinds values.now → length kinds ≡ N → LineFrom kinds values.now last after text.old end (min N (column + 1)) → LineFrom kinds values.now last after text.new result (min N column) }
{
    if column >= N {
        return end;
    }
    let start = write_value(units[column], values[column], text, end);
    if column == 0 {
        return start;
    }
    text[start - 1] = b',';
    start - 1
}

// Writes a row with few columns as a line that ends at `end`, from its last field to its first, and returns where it starts.
#[inline(always)]
fn write_short_line<const N: usize>(
    kinds: &[Kind; N],
    values: &[u64; N],
    text: &mut [u8; LINE_BYTES],
    end: usize,
) -> usize
    requires some { 0 < N }
    requires few { N ≤ 5 }
    requires room { N * 24 + 22 ≤ end }
    requires within { end ≤ LINE_BYTES }
    ensures start { result ≤ end }
    ensures short { end ≤ result + N * 24 + 1 }
    ensures written { drop result text.new ≡ line (row_texts 0 kinds.now values.now) ++ drop end text.old }
{
    let units = units_of(kinds, values);
    text[end - 1] = b'\n';
    let fifth = write_field(&units, values, 4, text, end - 1);
    let fourth = write_field(&units, values, 3, text, fifth);
    let third = write_field(&units, values, 2, text, fourth);
    let second = write_field(&units, values, 1, text, third);
    write_field(&units, values, 0, text, second)
}

// Writes a row with any number of columns so.
#[inline(always)]
fn write_long_line<const N: usize>(
    kinds: &[Kind; N],
    values: &[u64; N],
    text: &mut [u8; LINE_BYTES],
    end: usize,
) -> usize
    requires size { N < 100 }
    requires some { 0 < N }
    requires room { N * 24 + 22 ≤ end }
    requires within { end ≤ LINE_BYTES }
    ensures start { result ≤ end }
    ensures short { end ≤ result + N * 24 + 1 }
    ensures written { drop result text.new ≡ line (row_texts 0 kinds.now values.now) ++ drop end text.old }
{
    let units = units_of(kinds, values);
    let mut at = end - 1;
    text[at] = b'\n';
    let mut column = N;
    while column > 0 {
        column -= 1;
        at = write_field(&units, values, column, text, at);
    }
    at
}

// Writes a row as a line that ends at `end`, from its last field to its first, and returns where it starts.
#[inline(always)]
fn write_line<const N: usize>(
    kinds: &[Kind; N],
    values: &[u64; N],
    text: &mut [u8; LINE_BYTES],
    end: usize,
) -> usize
    requires size { N < 100 }
    requires some { 0 < N }
    requires room { N * 24 + 22 ≤ end }
    requires within { end ≤ LINE_BYTES }
    ensures start { result ≤ end }
    ensures short { end ≤ result + N * 24 + 1 }
    ensures written { drop result text.new ≡ line (row_texts 0 kinds.now values.now) ++ drop end text.old }
{
    if N <= SHORT {
        write_short_line(kinds, values, text, end)
    } else {
        write_long_line(kinds, values, text, end)
    }
}

/// So many bytes have room for a count of 64 bits and a comma.
const FRONT_BYTES: usize = 21;

/// What stands in front of each line, the same for all: a count as its first field, or nothing.
#[derive(Clone, Copy)]
pub(crate) struct Front {
    /// It ends with this text.
    text: [u8; FRONT_BYTES],
    /// How many bytes it has.
    size: usize,
}

/// What stands in front of lines: a count as the first field of each, where there is one.
pub(crate) fn front_of(before: Option<u64>) -> Front
    ensures { IsFront before result }
{
    let mut text = [0; FRONT_BYTES];
    match before {
        None => Front { text, size: 0 },
        Some(count) => {
            let last = FRONT_BYTES - 1;
            text[last] = b',';
            let start = write_digits(count, &mut text, last);
            Front {
                text,
                size: FRONT_BYTES - start,
            }
        }
    }
}

// Writes what stands in front of a line so that it ends at `end`, and returns where it starts. Some bytes before it are written too.
#[inline(always)]
fn write_front(front: &Front, text: &mut [u8; LINE_BYTES], end: usize) -> usize
    requires room { 21 ≤ end }
    requires within { end ≤ LINE_BYTES }
    requires short { front.now.size ≤ 21 }
    ensures start { result + front.now.size ≡ end }
    ensures written { drop result text.new ≡ drop (21 - front.now.size) front.now.text ++ drop end text.old }
{
    text[end - FRONT_BYTES..end].copy_from_slice(&front.text);
    end - front.size
}

// Writes a row as a line that ends at `end`, behind what stands in front of it, and returns where it starts.
#[inline(always)]
fn write_line_with<const N: usize>(
    front: &Front,
    kinds: &[Kind; N],
    values: &[u64; N],
    text: &mut [u8; LINE_BYTES],
    end: usize,
) -> usize
    requires size { N < 100 }
    requires some { 0 < N }
    requires short { front.now.size ≤ 21 }
    requires room { N * 24 + 22 ≤ end }
    requires within { end ≤ LINE_BYTES }
    ensures start { result ≤ end }
    ensures short { end ≤ result + (N * 24 + 22) }
    ensures written { (before : Option ℕ) → IsFront before front.now → drop result text.new ≡ line_with before kinds.now values.now ++ drop end text.old }
{
    let start = write_line(kinds, values, text, end);
    if front.size == 0 {
        return start;
    }
    write_front(front, text, start)
}

/// Writes so many rows as lines that end with the buffer, from the last to the first, each behind what stands in front of it, and
/// returns where they start.
#[inline(always)]
pub(crate) fn write_lines<const N: usize>(
    front: &Front,
    kinds: &[Kind; N],
    rows: &[[u64; N]; ROWS],
    count: usize,
    text: &mut [u8; LINE_BYTES],
) -> usize
    requires size { N < 100 }
    requires some { 0 < N }
    requires short { front.now.size ≤ 21 }
    requires count { count ≤ ROWS }
    requires room { count * (N * 24 + 22) ≤ LINE_BYTES }
    ensures start { result ≤ LINE_BYTES }
    ensures written { (before : Option ℕ) → IsFront before front.now → drop result text.new ≡ lines_with before kinds.now (take count rows.now) }
{
    let mut at = LINE_BYTES;
    let mut row = count;
    while row > 0 {
        row -= 1;
        at = write_line_with(front, kinds, &rows[row], text, at);
    }
    at
}
