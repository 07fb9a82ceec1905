//! The records of a table as lines of text.
//! The rule: docs/TABLES.md, "Texts of tables".
ghost use Rattle.std.specs.Prelude.{◌≡◌, ◌<◌, ◌≤◌, ◌+◌, ◌*◌, ◌^◌, ◌++◌, OnOk, IfOk, IfErr, Ok, Err, length, take};
ghost use Rattle.kt_cells.specs.Lines.{lines_with};
ghost use Rattle.kt_cells.specs.Reading.{and_then, behind};
ghost use Rattle.kt_cells.specs.Records.{record_rows, records_behind, record_width as record_width_of};
ghost use Rattle.kt_cells.specs.Stops.{Tells};
ghost use Rattle.kt_cells.specs.Taking.{HasMore};
ghost use Rattle.kt_cells.specs.declared.lines.TheConstants.{LINE_BYTES, ROWS};

use crate::lines::{LINE_BYTES, ROWS, front_of, rows_at_once, write_lines};
use crate::records::{next_record, record_width};
use crate::stop::TableStop;
use kt_money::Bytes;
use kt_rec::Kind;

// Records that are read as rows.
#[derive(Clone, Copy)]
struct RowsRead<'a> {
    // How many.
    count: usize,
    // The bytes behind them.
    rest: &'a [u8],
}

// Reads the records at the front of the bytes that are left behind so many records, as rows that are written at once. An error is
// the first bad field, or a record that is cut by the end.
#[inline(always)]
fn next_records<'a, const N: usize>(
    kinds: &[Kind; N],
    first: u32,
    before: u64,
    width: usize,
    bytes: &'a [u8],
    rows: &mut [[u64; N]; ROWS],
) -> Result<RowsRead<'a>, TableStop>
    requires size { N < 100 }
    requires first { first < 100 }
    requires width { width ≡ record_width_of kinds.now }
    requires wide { 0 < width }
    requires some { 0 < length bytes.now }
    requires room { before + length bytes.now < 2 ^ 64 }
    ensures next { IfOk result (λ read. records_behind before first kinds.now bytes.now ≡ behind (take read.count rows.new) (records_behind (before + read.count) first kinds.now read.rest.now)) }
    ensures shorter { IfOk result (λ read. read.count + length read.rest.now ≤ length bytes.now) }
    ensures fewer { IfOk result (λ read. length read.rest.now < length bytes.now) }
    ensures count { IfOk result (λ read. read.count ≤ ROWS) }
    ensures fit { IfOk result (λ read. read.count * (N * 24 + 22) ≤ LINE_BYTES) }

    ensures refused { IfErr result (λ stop. records_behind before first kinds.now bytes.now ≡ Err stop) }
{
    let most = rows_at_once(N);
    let mut rest = bytes;
    let mut count = 0;
    while count < most && !rest.is_empty() {
        let row = before + count as u64;
        rest = next_record(kinds, first, row, width, rest, &mut rows[count])?;
        count += 1;
    }
    Ok(RowsRead { count, rest })
}

/// Appends the rows that some bytes give as lines of text, without a list of the rows between, behind a count as the first
/// field of each where there is one. The first column has the number `first`. An error is the first bad field, by record and
/// then by column; then a record that is cut by the end; or want of memory. Then lines may stand behind what was there.
#[inline(always)]
pub fn push_record_lines<const N: usize>(
    out: &mut Bytes,
    before: Option<u64>,
    kinds: &[Kind; N],
    first: u32,
    bytes: &[u8],
) -> Result<(), TableStop>
    requires size { N < 100 }
    requires some { 0 < N }
    requires first { first < 100 }
    ensures ok { OnOk result (and_then (record_rows first kinds.now bytes.now) (λ rows. Ok (out.old ++ lines_with before kinds.now rows)) ≡ Ok out.new) }

    ensures refused { IfErr result (Tells (record_rows first kinds.now bytes.now)) }
    ensures kept { IfErr result (λ _. HasMore out.old out.new) }
{
    let width = record_width(kinds);
    let front = front_of(before);
    let mut rows = [[0; N]; ROWS];
    let mut text = [0; LINE_BYTES];
    let mut rest = bytes;
    let mut row = 0;
    while !rest.is_empty() {
        let read = next_records(kinds, first, row, width, rest, &mut rows)?;
        rest = read.rest;
        row += read.count as u64;
        let start = write_lines(&front, kinds, &rows, read.count, &mut text);
        out.append(&text[start..])?;
    }
    Ok(())
}
