//! Reads the footprint rows of events, those that follow one another in the file as one span.
//! The rules: docs/TABLES.md, "Footprint rows of a round".
ghost use Rattle.std.specs.Prelude.{◌≡◌, ◌≤◌, ◌+◌, ◌*◌, ◌/◌, ◌<◌, ◌^◌, true, length, [], ◌++◌, IfOk, IfSome, MatchResult, OnOk};
ghost use Rattle.kt_keys.specs.Refusals.{is_loaded};
ghost use Rattle.kt_load.specs.Ends.{IsReadStop};
ghost use Rattle.kt_load.specs.EventRows.{HasFootprint, LiesWithin, foot_row, foot_rows_in};
ghost use Rattle.kt_load.specs.Spans.{AddsSpan, AreRead, IsSpan, TakesEvent, joined_span};
ghost use Rattle.kt_rec.specs.declared.table.Table.TheVariants as table;
ghost use Rattle.kt_tables.specs.Lookups.{place_in};

use crate::file::read_part;
use crate::naming::file_name;
use crate::stop::LoadStop;
use byteorder::{ByteOrder, LittleEndian};
use kt_out::Inputs;
use kt_rec::{FootRow, Table, TableId};
use kt_tables::{Place, Portfolio};
use std::alloc::{AllocError, Global};

/// The size of a footprint row in its file, in bytes.
const ROW: usize = 12;

/// The row at the front of the bytes.
fn row_of(bytes: &[u8]) -> FootRow
    requires { 12 ≤ length bytes.now }
    ensures { result ≡ foot_row bytes.now }
{
    FootRow {
        areaperil: LittleEndian::read_u32(bytes),
        intensity: LittleEndian::read_u32(&bytes[4..]),
        prob: LittleEndian::read_u32(&bytes[8..]),
    }
}

/// Puts the rows that the bytes are behind other rows.
#[tactic(auto, using(std::proofs::lemmas::List::take_rest))]
fn push_rows(bytes: &[u8], rows: &mut Vec<FootRow>) -> Result<(), AllocError>
    ensures value { OnOk result (rows.new.items ≡ rows.old.items ++ foot_rows_in (length bytes.now / 12) bytes.now) }
{
    let count = bytes.len() / ROW;
    rows.reserve(count)?;
    for i in 0..count {
        rows.push_reserved(row_of(&bytes[ROW * i..]));
    }
    Ok(())
}

/// The place of an event in the footprint's file, which has its bytes; none where the index has no such event.
#[tactic(auto, using(crate::proofs::EventRowLemmas::lies_within))]
pub(crate) fn place_in_file(portfolio: &Portfolio, event: u32) -> Option<Place>
    requires footprint { is_loaded portfolio.now.need 0 table.Footprint ≡ true }
    ensures value { result ≡ place_in portfolio.now.rows event }
    ensures within { IfSome result (LiesWithin portfolio.now.rows.footprint_size) }
{
    portfolio.is_valid();
    portfolio.place_of(event)
}

/// Reads the rows of a span and puts them behind other rows. An empty span asks for nothing. The errors are a fault of the inputs
/// and want of memory.
pub(crate) fn read_span<I: Inputs>(
    alloc: Global,
    inputs: &mut I,
    portfolio: &Portfolio,
    span: Place,
    rows: &mut Vec<FootRow>,
) -> Result<(), LoadStop>
    requires file { HasFootprint (I.state inputs.old).held portfolio.now.rows.footprint_size }
    requires span { IsSpan portfolio.now.rows.footprint_size span }
    requires few { span.size ≤ 64 * 1200000 }
    ensures value { OnOk result (AddsSpan (I.state inputs.old).held span rows.old.items rows.new.items) }

    ensures inputs { MatchResult result (λ _. I.state inputs.new ≡ I.state inputs.old) (IsReadStop (I.state inputs.old) (I.state inputs.new)) }
{
    if span.size == 0 {
        return Ok(());
    }
    let footprint = TableId {
        stage: 0,
        table: Table::Footprint,
    };
    let name = file_name(alloc, footprint)?;
    // A span lies in the file, whose size is a number of 64 bits.
    let _size = portfolio.tables().footprint_size;
    let bytes = read_part(alloc, inputs, name.as_slice(), span.at, span.size as usize)?;
    push_rows(bytes.as_slice(), rows)?;
    Ok(())
}

/// A span and a place as one span, where one of them is empty, or the place follows the span without a gap.
fn joined(span: Place, place: Place) -> Option<Place>
    requires few { span.size + place.size < 2 ^ 64 }
    ensures exact { result ≡ joined_span span place }
{
    if span.size == 0 {
        return Some(place);
    }
    if place.size == 0 {
        return Some(span);
    }
    if span.at <= place.at && place.at - span.at == span.size {
        return Some(Place {
            at: span.at,
            size: span.size + place.size,
        });
    }
    None
}

/// The span that is to be read once an event has come. Where the event's rows follow the span without a gap, they are in it; else the
/// span is read and the event's rows are the next one. The errors are a fault of the inputs and want of memory.
fn next_span<I: Inputs>(
    alloc: Global,
    inputs: &mut I,
    portfolio: &Portfolio,
    span: Place,
    event: u32,
    rows: &mut Vec<FootRow>,
) -> Result<Place, LoadStop>
    requires footprint { is_loaded portfolio.now.need 0 table.Footprint ≡ true }
    requires file { HasFootprint (I.state inputs.old).held portfolio.now.rows.footprint_size }
    requires span { IsSpan portfolio.now.rows.footprint_size span }
    requires few { span.size ≤ 63 * 1200000 }
    ensures value { IfOk result (λ next. TakesEvent (I.state inputs.old).held portfolio.now.rows event rows.old.items span rows.new.items next) }
    ensures span { IfOk result (IsSpan portfolio.now.rows.footprint_size) }
    ensures few { IfOk result (λ next. next.size ≤ span.size + 1200000) }

    ensures inputs { MatchResult result (λ _. I.state inputs.new ≡ I.state inputs.old) (IsReadStop (I.state inputs.old) (I.state inputs.new)) }
{
    let Some(place) = place_in_file(portfolio, event) else {
        return Ok(span);
    };
    if let Some(longer) = joined(span, place) {
        return Ok(longer);
    }
    read_span(alloc, inputs, portfolio, span, rows)?;
    Ok(place)
}

/// Reads the rows of events, one event after the other, into a list that has none. The errors are a fault of the inputs and want of
/// memory.
pub(crate) fn read_rows<I: Inputs>(
    alloc: Global,
    inputs: &mut I,
    portfolio: &Portfolio,
    events: &[u32],
    rows: &mut Vec<FootRow>,
) -> Result<(), LoadStop>
    requires footprint { is_loaded portfolio.now.need 0 table.Footprint ≡ true }
    requires file { HasFootprint (I.state inputs.old).held portfolio.now.rows.footprint_size }
    requires few { length events.now ≤ 64 }
    requires none { rows.old.items ≡ [] }
    ensures value { OnOk result (AreRead (I.state inputs.old).held portfolio.now.rows events.now rows.new.items) }

    ensures inputs { MatchResult result (λ _. I.state inputs.new ≡ I.state inputs.old) (IsReadStop (I.state inputs.old) (I.state inputs.new)) }
{
    let mut span = Place { at: 0, size: 0 };
    for event in events {
        span = next_span(alloc, inputs, portfolio, span, *event, rows)?;
    }
    read_span(alloc, inputs, portfolio, span, rows)?;
    Ok(())
}
