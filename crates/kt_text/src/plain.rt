//! Rows that stand in a text without quotes: where their fields begin and end. Nothing is copied.
//! The rule: docs/TABLES.md, "Texts of tables".

ghost use Rattle.std.specs.Prelude.{◌≡◌, ◌≤◌, ◌<◌, ◌⊎◌, ◌++◌, ℕ, List, true, false, cond, [], length, take, drop, IfSome, IfNone};
ghost use Rattle.std.specs.List.{list_all, list_any, position_or_len};
ghost use Rattle.csv.specs.Reading.{records, default_config, strip_bom};
ghost use Rattle.csv.specs.Writing.{default_writer, needs_byte};
ghost use Rattle.kt_text.specs.Rows.{csv_rows};
ghost use Rattle.kt_text.specs.PlainText.{csv_records, BeginsField, EndsField, StandsBehind, IsField, is_line_end as ends_line, ends_heading as heading_ends, has_plain_heading, begins_with_comma, begins_with_line_end, begins_with_mark, begins_with_row};

// Whether a byte has a meaning of its own: a comma, a quote or the end of a line.
fn is_mark(byte: u8) -> bool
    ensures { result ≡ needs_byte default_writer byte }
{
    // Most bytes are above them all.
    byte <= b',' && (byte == b',' || byte == b'"' || byte == b'\r' || byte == b'\n')
}

// Whether a byte ends a line.
fn is_line_end(byte: u8) -> bool
    ensures { result ≡ ends_line byte }
{
    byte == b'\r' || byte == b'\n'
}

// Whether a byte ends a heading without quotes, or is a quote.
fn ends_heading(byte: u8) -> bool
    ensures { result ≡ heading_ends byte }
{
    byte == b'"' || is_line_end(byte)
}

/// How many bytes the field at the front of a text has, if it has no quotes: those before the first comma, quote or end of
/// a line.
#[tactic(auto, using(crate::proofs::PlainRowLemmas::plain_fields))]
pub fn field_length(text: &[u8]) -> usize
    ensures within { result ≤ length text.now }
    ensures field { IsField text.now result }
    ensures whole { result ≡ position_or_len (needs_byte default_writer) text.now }
{
    for (place, byte) in text.iter().enumerate() {
        if is_mark(*byte) {
            return place;
        }
    }
    text.len()
}

// How many bytes stand before the end of a heading without quotes.
fn heading_length(text: &[u8]) -> usize
    ensures within { result ≤ length text.now }
    ensures plain { list_any heading_ends (take result text.now) ≡ false }
    ensures whole { result ≡ position_or_len heading_ends text.now }
{
    for (place, byte) in text.iter().enumerate() {
        if ends_heading(*byte) {
            return place;
        }
    }
    text.len()
}

// Whether a text begins with the end of a line.
fn begins_line_end(text: &[u8]) -> bool
    ensures { result ≡ begins_with_line_end text.now }
{
    match text {
        [first, ..] => is_line_end(*first),
        _ => false,
    }
}

// The text behind the ends of lines at its front, if a row begins there.
#[tactic(auto, using(crate::proofs::PlainRowLemmas::plain_rows))]
fn row_behind(text: &[u8]) -> Option<&[u8]>
    ensures same { IfSome result (λ rest. (more : List ℕ) → records default_config (text.now ++ more) ≡ records default_config (rest.now ++ more)) }
    ensures begins { IfSome result (λ rest. begins_with_row rest.now ≡ true) }
    ensures shorter { IfSome result (λ rest. length rest.now ≤ length text.now) }
    ensures none { IfNone result (list_all ends_line text.now ≡ true) }
{
    let mut rest = text;
    while let [first, after @ ..] = rest {
        if !is_line_end(*first) {
            return Some(rest);
        }
        rest = after;
    }
    None
}

/// The first field of the first row behind the end of a line. A text that begins with a byte of a row has none.
#[inline(always)]
pub fn first_field(text: &[u8]) -> Option<&[u8]>
    ensures begins { IfSome result (λ rest. BeginsField text.now [] rest.now) }
    ensures begins_front { IfSome result (λ rest. (more : List ℕ) → BeginsField (text.now ++ more) [] (rest.now ++ more)) }
    ensures shorter { IfSome result (λ rest. length rest.now < length text.now) }

    // There is none where the text does not begin with the end of a line, or has nothing else.
    ensures none { IfNone result ((begins_with_line_end text.now ≡ false) ⊎ (list_all ends_line text.now ≡ true)) }
{
    let [first, after @ ..] = text else {
        return None;
    };
    if !is_line_end(*first) {
        return None;
    }
    row_behind(after)
}

/// What stands behind a field: the next field, behind a comma; or behind the last field of a row the text from the end of
/// its line on. Anything else is `None`.
#[inline(always)]
pub fn behind_field(text: &[u8], is_last: bool) -> Option<&[u8]>
    ensures stands { IfSome result (λ rest. (start : List ℕ) (fields : List (List ℕ)) → EndsField start fields text.now → StandsBehind is_last start fields rest.now) }
    ensures stands_front { IfSome result (λ rest. (more start : List ℕ) (fields : List (List ℕ)) → EndsField start fields (text.now ++ more) → StandsBehind is_last start fields (rest.now ++ more)) }
    ensures shorter { IfSome result (λ rest. length rest.now ≤ length text.now) }

    // There is none where behind the last field no line ends, or behind another no comma stands.
    ensures none { IfNone result (cond is_last (begins_with_line_end text.now) (begins_with_comma text.now) ≡ false) }
{
    if is_last {
        at_line_end(text)
    } else {
        behind_comma(text)
    }
}

// What stands behind a comma.
#[inline(always)]
#[tactic(auto, using(crate::proofs::PlainRowLemmas::plain_fields))]
fn behind_comma(text: &[u8]) -> Option<&[u8]>
    ensures stands { IfSome result (λ rest. (start : List ℕ) (fields : List (List ℕ)) → EndsField start fields text.now → BeginsField start fields rest.now) }
    ensures stands_front { IfSome result (λ rest. (more start : List ℕ) (fields : List (List ℕ)) → EndsField start fields (text.now ++ more) → BeginsField start fields (rest.now ++ more)) }
    ensures shorter { IfSome result (λ rest. length rest.now ≤ length text.now) }
    ensures none { IfNone result (begins_with_comma text.now ≡ false) }
{
    let [first, rest @ ..] = text else {
        return None;
    };
    if *first != b',' {
        return None;
    }
    Some(rest)
}

// A text that begins with the end of a line.
#[inline]
#[tactic(auto, using(crate::proofs::PlainRowLemmas::plain_fields))]
fn at_line_end(text: &[u8]) -> Option<&[u8]>
    ensures stands { IfSome result (λ rest. (start : List ℕ) (fields : List (List ℕ)) → EndsField start fields text.now → StandsBehind true start fields rest.now) }
    ensures stands_front { IfSome result (λ rest. (more start : List ℕ) (fields : List (List ℕ)) → EndsField start fields (text.now ++ more) → StandsBehind true start fields (rest.now ++ more)) }
    ensures shorter { IfSome result (λ rest. length rest.now ≤ length text.now) }
    ensures none { IfNone result (begins_with_line_end text.now ≡ false) }
{
    if begins_line_end(text) {
        Some(text)
    } else {
        None
    }
}

// Whether a text begins with a byte order mark.
fn has_mark(text: &[u8]) -> bool
    ensures { result ≡ begins_with_mark text.now }
{
    match text {
        [first, second, third, ..] => *first == 0xEF && *second == 0xBB && *third == 0xBF,
        _ => false,
    }
}

// The text without a byte order mark in front.
#[tactic(auto, using(crate::proofs::PlainRowLemmas::plain_headings))]
fn without_mark(text: &[u8]) -> &[u8]
    ensures { result.now ≡ strip_bom text.now }
{
    if has_mark(text) { &text[3..] } else { text }
}

/// The text from the end of the heading's line on, if the heading begins the text and has no quotes: its records are
/// the rows.
pub fn behind_heading(text: &[u8]) -> Option<&[u8]>
    ensures rows { IfSome result (λ rest. csv_rows text.now ≡ csv_records rest.now) }
    ensures rows_front { IfSome result (λ rest. 3 ≤ length text.now → (more : List ℕ) → csv_rows (text.now ++ more) ≡ csv_records (rest.now ++ more)) }

    // There is none where the text has no such heading.
    ensures none { IfNone result (has_plain_heading (strip_bom text.now) ≡ false) }
{
    let whole = without_mark(text);
    let size = heading_length(whole);
    let rest = &whole[size..];
    if size > 0 && begins_line_end(rest) {
        Some(rest)
    } else {
        None
    }
}
