//! The line on standard error that says why a run was refused.
//! The rules: docs/REFUSALS.md, "Texts".
ghost use Rattle.std.specs.Prelude.{◌≡◌, ◌++◌, OnOk, IfOk, codes};
ghost use Rattle.kt_money.specs.NumberText.{count_text, money_text};
ghost use Rattle.kt_ends.specs.Line.{cause_text, event_text, field_text, file_text, record_text, refusal_text, row_text, stream_text, status_text, status_line};
ghost use Rattle.kt_ends.specs.Line.{IsRefused};
ghost use Rattle.kt_ends.specs.declared.status.Refusal.TheVariants as refusal;

use crate::status::{Refusal, Status};
use kt_cells::Cause;
use kt_money::{Bytes, OutOfMemory, push_count, push_money};
use kt_rec::{Name, RowCause};
use kt_stream::{RecordCause, StreamStop};
use kt_words::WordCause;
use std::alloc::Global;

/// The text of a word's cause.
fn cause_words(cause: WordCause) -> &'static [u8]
    ensures { result.now ≡ cause_text cause }
{
    match cause {
        WordCause::Missing => b"missing",
        WordCause::UnknownTool => b"unknown tool",
        WordCause::UnknownOption => b"unknown option",
        WordCause::Repeated => b"repeated",
        WordCause::NeedsValue => b"needs a value",
        WordCause::BadValue => b"bad value",
        WordCause::Unexpected => b"unexpected",
        WordCause::NotTogether => b"not together",
        WordCause::BadPart => b"bad part",
    }
}

/// Appends `byte B: TEXT`.
fn push_place(out: &mut Bytes, byte: u64, text: &[u8]) -> Result<(), OutOfMemory>
    ensures { OnOk result (out.new ≡ out.old ++ (codes "byte " ++ (count_text byte ++ (codes ": " ++ text.now)))) }
{
    out.append(b"byte ")?;
    push_count(out, byte)?;
    out.append(b": ")?;
    out.append(text)
}

/// The text of what is wrong with a field of a record.
fn record_words(cause: RecordCause) -> &'static [u8]
    ensures { result.now ≡ record_text cause }
{
    match cause {
        RecordCause::Id => b"id",
        RecordCause::Exposure => b"exposure",
        RecordCause::Empty => b"empty",
        RecordCause::Sidx => b"sidx",
        RecordCause::Loss => b"loss",
        RecordCause::End => b"end",
        RecordCause::Bins => b"bins",
        RecordCause::Prob => b"prob",
        RecordCause::Mean => b"mean",
    }
}

/// Appends `TEXT N`, where a blank ends the text.
fn push_number(out: &mut Bytes, text: &[u8], number: u32) -> Result<(), OutOfMemory>
    ensures { OnOk result (out.new ≡ out.old ++ (text.now ++ count_text number)) }
{
    out.append(text)?;
    push_count(out, number as u64)
}

/// Appends the text of a refused stream.
fn push_stream_text(out: &mut Bytes, stop: StreamStop) -> Result<(), OutOfMemory>
    ensures { OnOk result (out.new ≡ out.old ++ stream_text stop) }
{
    match stop {
        StreamStop::NotProfile => out.append(b"not of this profile"),
        StreamStop::WrongStream { found } => push_number(out, b"wrong stream ", found as u32),
        StreamStop::BadSamples { found } => push_number(out, b"bad samples ", found),
        StreamStop::BadSet { found } => push_number(out, b"bad set ", found),
        StreamStop::BadRecord { byte, cause } => push_place(out, byte, record_words(cause)),
        StreamStop::Cut { byte } => push_place(out, byte, b"cut"),
        StreamStop::TooLong => out.append(b"too long"),
    }
}

/// Appends `file N: `.
fn push_file_number(out: &mut Bytes, file: u32) -> Result<(), OutOfMemory>
    ensures { OnOk result (out.new ≡ out.old ++ (codes "file " ++ (count_text file ++ codes ": "))) }
{
    out.append(b"file ")?;
    push_count(out, file as u64)?;
    out.append(b": ")
}

/// The text of what is wrong with a row or a field.
fn field_words(cause: Cause) -> &'static [u8]
    ensures { result.now ≡ field_text cause }
{
    match cause {
        Cause::Columns => b"columns",
        Cause::NotANumber => b"notanumber",
        Cause::TooManyDigits => b"toomanydigits",
        Cause::ExponentRange => b"exponentrange",
        Cause::TooLarge => b"toolarge",
        Cause::Zero => b"zero",
        Cause::Rule => b"rule",
        Cause::Order => b"order",
    }
}

/// Appends `NAME: TEXT`.
fn push_file(out: &mut Bytes, name: &Name, text: &[u8]) -> Result<(), OutOfMemory>
    ensures { OnOk result (out.new ≡ out.old ++ file_text name.now text.now) }
{
    out.append(name.as_slice())?;
    out.append(b": ")?;
    out.append(text)
}

/// Appends `NAME: TEXT N`, where a blank ends the text.
fn push_found(out: &mut Bytes, name: &Name, text: &[u8], found: u32) -> Result<(), OutOfMemory>
    ensures { OnOk result (out.new ≡ out.old ++ file_text name.now (text.now ++ count_text found)) }
{
    push_file(out, name, text)?;
    push_count(out, found as u64)
}

/// Appends `NAME: row R`.
fn push_row(out: &mut Bytes, name: &Name, row: u64) -> Result<(), OutOfMemory>
    ensures { OnOk result (out.new ≡ out.old ++ file_text name.now (codes "row " ++ count_text row)) }
{
    push_file(out, name, b"row ")?;
    push_count(out, row)
}

/// Appends ` column C: CAUSE`.
fn push_field(out: &mut Bytes, column: u32, cause: Cause) -> Result<(), OutOfMemory>
    ensures { OnOk result (out.new ≡ out.old ++ (codes " column " ++ (count_text column ++ (codes ": " ++ field_text cause)))) }
{
    out.append(b" column ")?;
    push_count(out, column as u64)?;
    out.append(b": ")?;
    out.append(field_words(cause))
}

/// Appends `NAME: row R: cut record`.
fn push_cut_record(out: &mut Bytes, name: &Name, row: u64) -> Result<(), OutOfMemory>
    ensures { OnOk result (out.new ≡ out.old ++ refusal_text (refusal.CutRecord name.now row)) }
{
    push_row(out, name, row)?;
    out.append(b": cut record")
}

/// Appends `NAME: row R column C: CAUSE`.
fn push_bad_field(
    out: &mut Bytes,
    name: &Name,
    row: u64,
    column: u32,
    cause: Cause,
) -> Result<(), OutOfMemory>
    ensures { OnOk result (out.new ≡ out.old ++ refusal_text (refusal.Bad name.now row column cause)) }
{
    push_row(out, name, row)?;
    push_field(out, column, cause)
}

/// Appends `NAME: row R: check N`.
fn push_check(out: &mut Bytes, name: &Name, row: u64, number: u32) -> Result<(), OutOfMemory>
    ensures { OnOk result (out.new ≡ out.old ++ refusal_text (refusal.Check number name.now row)) }
{
    push_row(out, name, row)?;
    out.append(b": check ")?;
    push_count(out, number as u64)
}

/// The text of what is wrong with a row of an event's footprint.
fn row_words(cause: RowCause) -> &'static [u8]
    ensures { result.now ≡ row_text cause }
{
    match cause {
        RowCause::Areaperil => b"areaperil",
        RowCause::Intensity => b"intensity",
        RowCause::Prob => b"prob",
        RowCause::Twice => b"twice",
        RowCause::Sum => b"sum",
    }
}

/// Appends `event E row R: CAUSE`.
fn push_event_row(out: &mut Bytes, event: u32, row: u64, cause: RowCause) -> Result<(), OutOfMemory>
    ensures { OnOk result (out.new ≡ out.old ++ refusal_text (refusal.Row event row cause)) }
{
    push_number(out, b"event ", event)?;
    out.append(b" row ")?;
    push_count(out, row)?;
    out.append(b": ")?;
    out.append(row_words(cause))
}

/// Appends `file N: ` and why its stream is refused.
fn push_file_stream(out: &mut Bytes, file: u32, stop: StreamStop) -> Result<(), OutOfMemory>
    ensures { OnOk result (out.new ≡ out.old ++ refusal_text (refusal.File file stop)) }
{
    push_file_number(out, file)?;
    push_stream_text(out, stop)
}

/// Appends `file N: header differs`.
fn push_other_header(out: &mut Bytes, file: u32) -> Result<(), OutOfMemory>
    ensures { OnOk result (out.new ≡ out.old ++ refusal_text (refusal.HeaderDiffers file)) }
{
    push_file_number(out, file)?;
    out.append(b"header differs")
}

/// Appends `event E: TEXT`.
fn push_event(out: &mut Bytes, event: u32, text: &[u8]) -> Result<(), OutOfMemory>
    ensures { OnOk result (out.new ≡ out.old ++ event_text event text.now) }
{
    out.append(b"event ")?;
    push_count(out, u64::from(event))?;
    out.append(b": ")?;
    out.append(text)
}

/// Appends `event E: period limit: H + M`, with amounts of money.
fn push_period(out: &mut Bytes, event: u32, held: u64, more: u64) -> Result<(), OutOfMemory>
    ensures { OnOk result (out.new ≡ out.old ++ event_text event (codes "period limit: " ++ (money_text held ++ (codes " + " ++ money_text more)))) }
{
    push_event(out, event, b"period limit: ")?;
    push_money(out, held)?;
    out.append(b" + ")?;
    push_money(out, more)
}

/// Appends why a run is refused.
fn push_refusal(out: &mut Bytes, refusal: &Refusal) -> Result<(), OutOfMemory>
    ensures { OnOk result (out.new ≡ out.old ++ refusal_text refusal.now) }
{
    match refusal {
        Refusal::Stream(stop) => push_stream_text(out, *stop),
        Refusal::UnknownId { byte } => push_place(out, *byte, b"unknown id"),
        Refusal::LossSum { byte } => push_place(out, *byte, b"loss sum"),
        Refusal::Row { event, row, cause } => push_event_row(out, *event, *row, *cause),
        Refusal::Cells { event, .. } => push_event(out, *event, b"cell limit"),
        Refusal::Period {
            event,
            held,
            more,
            ..
        } => push_period(out, *event, *held, *more),
        Refusal::File { file, stop } => push_file_stream(out, *file, *stop),
        Refusal::HeaderDiffers { file } => push_other_header(out, *file),
        Refusal::Missing { name } => push_file(out, name, b"missing"),
        Refusal::TooLarge { name } => push_file(out, name, b"too large"),
        Refusal::NotProfile { name } => push_file(out, name, b"not of this profile"),
        Refusal::WrongTable { name, found } => push_found(out, name, b"wrong table ", *found),
        Refusal::WrongVersion { name, found } => push_found(out, name, b"wrong version ", *found),
        Refusal::CutRecord { name, row } => push_cut_record(out, name, *row),
        Refusal::Bad {
            name,
            row,
            column,
            cause,
        } => push_bad_field(out, name, *row, *column, *cause),
        Refusal::Check { number, name, row } => push_check(out, name, *row, *number),
    }
}

/// Appends what a status says: nothing, unless the words or the input are refused.
fn push_status_text(out: &mut Bytes, status: &Status) -> Result<(), OutOfMemory>
    ensures { OnOk result (out.new ≡ out.old ++ status_text status.now) }
{
    match status {
        Status::Words(stop) => {
            out.append(b"word ")?;
            push_count(out, stop.word as u64)?;
            out.append(b": ")?;
            out.append(cause_words(stop.cause))
        }
        Status::Refused(refusal) => push_refusal(out, refusal),
        _ => Ok(()),
    }
}

/// The line that a refused run has on standard error.
pub fn line_of(alloc: Global, status: &Status) -> Result<Bytes, OutOfMemory>
    requires { IsRefused status.now }
    ensures { IfOk result (λ text. text ≡ status_line status.now) }
{
    let mut out = Bytes::new(alloc);
    out.append(b"ktools: ")?;
    push_status_text(&mut out, status)?;
    out.append(b"\n")?;
    Ok(out)
}
