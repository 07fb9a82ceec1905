//! The rows of a CSV text, read one after the other.
//! The rule: docs/TABLES.md, "Texts of tables".
ghost use Rattle.std.specs.Prelude.{◌≡◌, ◌∷◌, ◌<◌, ◌≤◌, ◌+◌, ◌++◌, ◌^◌, ℕ, List, [], IfOk, IfErr, OnOk, length, Ok};
ghost use Rattle.kt_text.specs.PlainText.{csv_records};
ghost use Rattle.kt_text.specs.Records.{StandsBetween, bytes_left, records_left};
ghost use Rattle.kt_text.specs.Rows.{csv_rows};
ghost use Rattle.kt_cells.specs.Texts.{text_value, text_rows};
ghost use Rattle.kt_cells.specs.Stops.{Tells};
ghost use Rattle.kt_cells.specs.Reading.{table_rows};
ghost use Rattle.kt_cells.specs.Ranges.{IsRow, AreRows, AreInOrder, FitsBytes};
ghost use Rattle.kt_cells.specs.Taking.{HandsOver, HandsFront, TakesMore};

use crate::plain_rows::plain_row;
use crate::reader::{floor_after, read_record};
use crate::row_sink::RowSink;
use crate::stop::TableStop;
use csv::{ByteRecord, Reader};
use kt_rec::{Cause, Kind};
use kt_text::{behind_heading, next_record, reader_of};
use std::alloc::{AllocError, Global};

/// How far the rows of a text are read.
#[derive(Clone, Copy, Drop)]
pub struct TextFront<'a> {
    /// How many are read.
    pub count: u64,
    /// The least first value that the next one may have.
    pub floor: u64,
    /// The text behind them.
    pub rest: &'a [u8],
}

/// Hands over the next rows of a text that stand there without quotes, as far as they are whole: they are the same whatever
/// follows the text. It fails for want of memory alone; the sink has taken some of these rows then.
#[inline(always)]
pub fn read_front<'a, const N: usize, S: RowSink<N>>(
    start: TextFront<'a>,
    kinds: &[Kind; N],
    ordered: bool,
    sink: &mut S,
) -> Result<TextFront<'a>, AllocError>
    requires size { N < 100 }
    requires some { 0 < N }
    requires room { start.count + length start.rest.now < 2 ^ 64 }
    requires takes { (row : List ℕ) → IsRow 0 kinds.now row → FitsBytes kinds.now row → S.takes row }
    ensures value { IfOk result (λ front. (more : List ℕ) → HandsFront (TakesMore (S.takes_to kinds.now) sink.old sink.new) (table_rows text_value ordered 1 kinds.now start.entry.floor (start.entry.count + 1) (csv_records (start.entry.rest.now ++ more))) (table_rows text_value ordered 1 kinds.now front.floor (front.count + 1) (csv_records (front.rest.now ++ more)))) }
    ensures within { IfOk result (λ front. front.count + length front.rest.now ≤ start.entry.count + length start.entry.rest.now) }
{
    let mut count = start.count;
    let mut floor = start.floor;
    let mut rest = start.rest;
    let mut values = [0; N];
    while let Some(behind) = plain_row(rest, kinds, floor, &mut values) {
        count += 1;
        floor = floor_after(ordered, &values);
        sink.take(kinds, &values)?;
        rest = behind;
    }
    Ok(TextFront { count, floor, rest })
}

// Hands over the rows that the reader has left, behind so many that were read, the first of them not below the floor.
#[inline(never)]
fn read_rows_left<const N: usize, S: RowSink<N>>(
    reader: &mut Reader<&[u8]>,
    fields: &mut ByteRecord,
    before: u64,
    least: u64,
    kinds: &[Kind; N],
    ordered: bool,
    sink: &mut S,
) -> Result<(), TableStop>
    requires size { N < 100 }
    requires some { 0 < N }
    requires stands { StandsBetween reader.old }
    requires room { before + bytes_left reader.old < 2 ^ 64 }
    requires takes { (row : List ℕ) → IsRow 0 kinds.now row → FitsBytes kinds.now row → S.takes row }
    ensures value { OnOk result (HandsOver (TakesMore (S.takes_to kinds.now) sink.old sink.new) (table_rows text_value ordered 1 kinds.now least (before + 1) (records_left reader.old))) }

    ensures refused { IfErr result (Tells (table_rows text_value ordered 1 kinds.now least (before + 1) (records_left reader.old))) }
{
    let mut count = before;
    let mut floor = least;
    while next_record(reader, fields)? {
        count += 1;
        if fields.len() != N {
            return Err(TableStop::Bad {
                row: count,
                column: 0,
                cause: Cause::Columns,
            });
        }
        let values = read_record(fields, kinds, count, floor)?;
        floor = floor_after(ordered, &values);
        sink.take(kinds, &values)?;
    }
    Ok(())
}

/// Hands over the values of all records that a text has left. An error is the first bad place, or want of memory.
#[inline(never)]
pub fn read_behind<const N: usize, S: RowSink<N>>(
    alloc: Global,
    front: TextFront<'_>,
    kinds: &[Kind; N],
    ordered: bool,
    sink: &mut S,
) -> Result<(), TableStop>
    requires size { N < 100 }
    requires some { 0 < N }
    requires room { front.count + length front.rest.now < 2 ^ 64 }
    requires takes { (row : List ℕ) → IsRow 0 kinds.now row → FitsBytes kinds.now row → S.takes row }
    ensures value { OnOk result (HandsOver (TakesMore (S.takes_to kinds.now) sink.old sink.new) (table_rows text_value ordered 1 kinds.now front.entry.floor (front.entry.count + 1) (csv_records front.entry.rest.now))) }

    ensures refused { IfErr result (Tells (table_rows text_value ordered 1 kinds.now front.entry.floor (front.entry.count + 1) (csv_records front.entry.rest.now))) }
{
    let mut reader = reader_of(alloc, front.rest);
    let mut fields = ByteRecord::new(alloc);
    let (count, floor) = (front.count, front.floor);
    read_rows_left(&mut reader, &mut fields, count, floor, kinds, ordered, sink)
}

/// Hands over the values of all records of a text but the first. An error is the first bad place, or want of memory.
#[inline(never)]
pub fn read_behind_heading<const N: usize, S: RowSink<N>>(
    alloc: Global,
    text: &[u8],
    kinds: &[Kind; N],
    ordered: bool,
    sink: &mut S,
) -> Result<(), TableStop>
    requires size { N < 100 }
    requires some { 0 < N }
    requires takes { (row : List ℕ) → IsRow 0 kinds.now row → FitsBytes kinds.now row → S.takes row }
    requires fresh { S.takes_to kinds.now sink.old [] sink.old }
    ensures value { OnOk result (HandsOver (λ rows. S.takes_to kinds.now sink.old rows sink.new) (table_rows text_value ordered 1 kinds.now 0 1 (csv_rows text.now))) }

    ensures refused { IfErr result (Tells (table_rows text_value ordered 1 kinds.now 0 1 (csv_rows text.now))) }
{
    let mut reader = reader_of(alloc, text);
    let mut fields = ByteRecord::new(alloc);
    if !next_record(&mut reader, &mut fields)? {
        return Ok(());
    }
    read_rows_left(&mut reader, &mut fields, 0, 0, kinds, ordered, sink)
}

/// Hands the values of a CSV text, its heading left out, to a sink. An error is the first bad place: by
/// row, in a row the number of its fields first, then by column; or want of memory. The sink has taken the rows before the
/// refused one then, so what it made of them is to be let go.
#[inline(always)]
#[tactic(auto, unfolding(crate::specs::Texts::text_rows))]
pub fn read_text<const N: usize, S: RowSink<N>>(
    alloc: Global,
    text: &[u8],
    kinds: &[Kind; N],
    ordered: bool,
    sink: &mut S,
) -> Result<(), TableStop>
    requires size { N < 100 }
    requires some { 0 < N }
    requires takes { (row : List ℕ) → IsRow 0 kinds.now row → FitsBytes kinds.now row → S.takes row }
    requires fresh { S.takes_to kinds.now sink.old [] sink.old }
    ensures value { OnOk result (HandsOver (λ rows. S.takes_to kinds.now sink.old rows sink.new) (text_rows ordered kinds.now text.now)) }
    ensures ranges { OnOk result ((rows : List (List ℕ)) → text_rows ordered kinds.now text.now ≡ Ok rows → AreRows kinds.now rows × AreInOrder ordered 0 rows) }

    ensures refused { IfErr result (Tells (text_rows ordered kinds.now text.now)) }
{
    let Some(rest) = behind_heading(text) else {
        return read_behind_heading(alloc, text, kinds, ordered, sink);
    };
    let (count, floor) = (0, 0);
    let front = read_front(TextFront { count, floor, rest }, kinds, ordered, sink)?;
    read_behind(alloc, front, kinds, ordered, sink)
}
