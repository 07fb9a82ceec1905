//! The text of a footprint, from its file and its index, written in blocks.
//! The rules: docs/COMMANDS.md, "tobin and tocsv".
ghost use Rattle.std.specs.Prelude.{IfErr, OnOk, All, length};
ghost use Rattle.kt_cells.specs.Stops.{Tells};
ghost use Rattle.kt_rec.specs.declared.table.Table.TheVariants.{Footprint};
ghost use Rattle.kt_schema.specs.Conversions.{bin_rows};
ghost use Rattle.kt_schema.specs.Footprint.{IsEntryOf, footprint_csv};
ghost use Rattle.kt_blocks.specs.Footprint.{IsJudgedFootprint};
ghost use Rattle.kt_blocks.specs.Progress.{WritesText};

use crate::pieces::{Pieces, write_pieces};
use crate::slices::slice;
use crate::stop::TextStop;
use crate::tables::start_of;
use kt_cells::{TableStop, push_record_lines, read_header, read_records, slices_give_slices};
use kt_money::Bytes;
use kt_out::{Fault, Sink};
use kt_rec::{FootprintIdx, Table};
use kt_schema::{FOOTPRINT, FOOTPRINT_RECORD, Judged, body};
use std::alloc::Global;

// How many bytes a record of the footprint file takes.
const FOOTPRINT_WIDTH: usize = 12;

// The place of the first record, behind the header.
const FIRST_OFFSET: u64 = 16;

/// The lines of the events of an index, one event after the other.
#[derive(Clone, Copy)]
struct Events<'a> {
    index: &'a [FootprintIdx],
    records: &'a [u8],
}

impl<'a> Pieces for Events<'a> {
    ghost use Rattle.std.specs.Prelude.{drop, length};
    ghost use Rattle.kt_cells.specs.Lines.{rows_lines};
    ghost use Rattle.kt_cells.specs.Records.{record_rows};
    ghost use Rattle.kt_rec.specs.declared.table.Table.TheVariants.{Footprint};
    ghost use Rattle.kt_schema.specs.Footprint.{indexed_rows};
    ghost use Rattle.kt_schema.specs.Tables.{kinds_of};
    ghost use Rattle.kt_blocks.specs.Footprint.{AreEvents};
    ghost use Rattle.kt_blocks.specs.Tables.{rows_or_none};

    ghost is_ready = { λ events. AreEvents events.records.now events.index.now };

    ghost pieces = { λ events. length events.index.now };

    ghost rest = { λ events piece. rows_lines (kinds_of Footprint) (indexed_rows (rows_or_none (record_rows 2 (drop 1 (kinds_of Footprint)) events.records.now)) (drop piece events.index.now)) };

    fn count(&self) -> usize {
        self.index.len()
    }

    fn push(&self, index: usize, out: &mut Bytes) -> Result<(), Fault> {
        slices_give_slices();
        let entry = self.index[index];
        let first = (entry.offset - FIRST_OFFSET) as usize / FOOTPRINT_WIDTH;
        let count = entry.size as usize / FOOTPRINT_WIDTH;
        let part = slice(self.records, FOOTPRINT_WIDTH, first, count);
        let before = Some(u64::from(entry.event_id));
        match push_record_lines(out, before, &FOOTPRINT_RECORD, 2, part) {
            Ok(()) => Ok(()),
            Err(_) => Err(Fault::OutOfMemory),
        }
    }
}

// Judges a footprint file: its header and all records.
fn judge(bytes: &[u8]) -> Result<(), TableStop>
    ensures ok { OnOk result (IsJudgedFootprint bytes.now) }

    ensures refused { IfErr result (Tells (bin_rows Footprint bytes.now)) }
{
    let _extra = read_header(FOOTPRINT.number, 0, 0, bytes)?;
    match read_records(&FOOTPRINT_RECORD, 2, body(true, bytes), &mut Judged) {
        Ok(()) => Ok(()),
        Err(stop) => Err(stop),
    }
}

/// Writes the text of a footprint, the records of each event in the order of the index, a block of 64 KiB at a time; the
/// lines of one event are made at once.
///
/// Each row of the index names whole records of the file. The whole file is judged first, and one that is refused writes
/// nothing: the first that is wrong is told, as `footprint_to_csv` tells it. After a failed write some front of the text
/// is written.
pub fn write_footprint<K: Sink>(
    alloc: Global,
    bytes: &[u8],
    index: &[FootprintIdx],
    sink: &mut K,
) -> Result<(), TextStop>
    requires { All (IsEntryOf (length bytes.now)) index.now }
    ensures { WritesText (footprint_csv bytes.now index.now) (K.state sink.old) (K.state sink.new) result }
{
    if let Err(stop) = judge(bytes) {
        return Err(TextStop::Refused(stop));
    }
    let start = match start_of(alloc, Table::Footprint) {
        Ok(start) => start,
        Err(stop) => return Err(TextStop::Refused(stop)),
    };
    let events = Events {
        index,
        records: body(true, bytes),
    };
    match write_pieces(&events, start, sink) {
        Ok(()) => Ok(()),
        Err(fault) => Err(TextStop::Unwritten(fault)),
    }
}
