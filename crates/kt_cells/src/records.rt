//! The rows that records of little-endian numbers give.
//! The rules: docs/TABLES.md, "Files of tables", "The first bad place".
ghost use Rattle.kt_cells.specs.Ranges.{IsRow, AreRows, FitsBytes};
ghost use Rattle.kt_cells.specs.Stops.{Tells};
ghost use Rattle.kt_cells.specs.Taking.{HandsOver};
ghost use Rattle.std.specs.Prelude.{◌≡◌, ℕ, List, [], OnOk, IfOk, IfErr, Ok, Err, ◌+◌, ◌*◌, ◌<◌, ◌≤◌, ◌^◌, ◌⊎◌, length, take, drop};
ghost use Rattle.byteorder.specs.Endian.{little_number};
ghost use Rattle.kt_rec.specs.Kinds.{width};
ghost use Rattle.kt_cells.specs.Reading.{in_front, row_values};
ghost use Rattle.kt_cells.specs.Records.{record_width as width_of, record_count, record_fields, record_rows, records_behind, field_value};

use crate::reader::rule_after;
use crate::row_sink::RowSink;
use crate::stop::TableStop;
use byteorder::{ByteOrder, LittleEndian};
use kt_rec::Kind;

/// How many bytes a record with these columns takes.
pub(crate) fn record_width(kinds: &[Kind]) -> usize
    requires { length kinds.now < 100 }
    ensures value { result ≡ width_of kinds.now }
    ensures some { 0 < length kinds.now → 0 < result }
{
    let mut bytes = 0;
    for kind in kinds {
        bytes += kind.width();
    }
    bytes
}

// The number that the first bytes give, four or eight.
fn number(bytes: &[u8], width: usize) -> u64
    requires width { (width ≡ 4) ⊎ (width ≡ 8) }
    requires room { width ≤ length bytes.now }
    ensures { result ≡ little_number width bytes.now }
{
    if width == 4 {
        u64::from(LittleEndian::read_u32(bytes))
    } else {
        LittleEndian::read_u64(bytes)
    }
}

// Reads the values of the record at the front of some bytes, the first column of which has the number `first`. An error
// is the first bad field; its row is `row`.
#[inline(always)]
#[tactic(auto, using(crate::proofs::RecordLemmas::field_within, crate::proofs::ReadingLemmas::row_end))]
fn read_record<const N: usize>(
    kinds: &[Kind; N],
    first: u32,
    row: u64,
    bytes: &[u8],
    values: &mut [u64; N],
) -> Result<(), TableStop>
    requires size { N < 100 }
    requires first { first < 100 }
    requires whole { width_of kinds.now ≤ length bytes.now }
    ensures ok { OnOk result (row_values field_value 0 0 row first kinds.now (record_fields kinds.now bytes.now) ≡ Ok values.new) }

    ensures refused { IfErr result (λ stop. row_values field_value 0 0 row first kinds.now (record_fields kinds.now bytes.now) ≡ Err stop) }
{
    let mut rule = 0;
    let mut rest = bytes;
    for (column, kind) in kinds.iter().enumerate() {
        let width = kind.width();
        match kind.under(rule).in_range(number(rest, width)) {
            Ok(value) => {
                values[column] = value;
                rule = rule_after(rule, *kind, value);
                rest = &rest[width..];
            }
            Err(cause) => {
                return Err(TableStop::Bad {
                    row,
                    column: first + column as u32,
                    cause,
                });
            }
        }
    }
    Ok(())
}

/// Reads the record at the front of the bytes that are left behind so many records, of so many bytes each, and gives the
/// bytes behind it. An error is its first bad field, or that it is cut by the end.
#[inline(always)]
#[tactic(auto, using(crate::proofs::RecordLemmas::record_in_range))]
pub(crate) fn next_record<'a, const N: usize>(
    kinds: &[Kind; N],
    first: u32,
    before: u64,
    width: usize,
    bytes: &'a [u8],
    values: &mut [u64; N],
) -> Result<&'a [u8], TableStop>
    requires size { N < 100 }
    requires first { first < 100 }
    requires width { width ≡ width_of kinds.now }
    requires wide { 0 < width }
    requires some { 0 < length bytes.now }
    requires room { before + length bytes.now < 2 ^ 64 }
    ensures next { IfOk result (λ rest. records_behind before first kinds.now bytes.now ≡ in_front values.new (records_behind (before + 1) first kinds.now rest.now)) }
    ensures shorter { IfOk result (λ rest. length rest.now < length bytes.now) }
    ensures range { OnOk result (IsRow 0 kinds.now values.new) }

    ensures refused { IfErr result (λ stop. records_behind before first kinds.now bytes.now ≡ Err stop) }
{
    if bytes.len() < width {
        return Err(TableStop::CutRecord { row: before + 1 });
    }
    read_record(kinds, first, before + 1, bytes, values)?;
    Ok(&bytes[width..])
}

/// Hands the values of all records to a sink, where the first column has the number `first`. An error is
/// the first bad field, by record and then by column; then a record that is cut by the end; or want of memory. The sink has
/// taken the records before the refused one then, so what it made of them is to be let go.
#[inline(always)]
pub fn read_records<const N: usize, S: RowSink<N>>(
    kinds: &[Kind; N],
    first: u32,
    bytes: &[u8],
    sink: &mut S,
) -> Result<(), TableStop>
    requires size { N < 100 }
    requires some { 0 < N }
    requires first { first < 100 }
    requires takes { (row : List ℕ) → IsRow 0 kinds.now row → FitsBytes kinds.now row → S.takes row }
    requires fresh { S.takes_to kinds.now sink.old [] sink.old }
    ensures value { OnOk result (HandsOver (λ rows. S.takes_to kinds.now sink.old rows sink.new) (record_rows first kinds.now bytes.now)) }
    ensures ranges { OnOk result ((rows : List (List ℕ)) → record_rows first kinds.now bytes.now ≡ Ok rows → AreRows kinds.now rows) }
    ensures count { OnOk result ((rows : List (List ℕ)) → record_rows first kinds.now bytes.now ≡ Ok rows → length rows ≡ record_count kinds.now bytes.now) }

    ensures refused { IfErr result (Tells (record_rows first kinds.now bytes.now)) }
{
    let width = record_width(kinds);
    let mut values = [0; N];
    let mut rest = bytes;
    let mut row = 0;
    while !rest.is_empty() {
        rest = next_record(kinds, first, row, width, rest, &mut values)?;
        row += 1;
        sink.take(kinds, &values)?;
    }
    Ok(())
}
