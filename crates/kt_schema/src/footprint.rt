//! From the footprint file and its index to the text of the footprint.
//! The rule: docs/TABLES.md, "Footprint".
ghost use Rattle.std.specs.Prelude.{◌≡◌, ◌++◌, ℕ, List, Ok, IfOk, IfErr, OnOk, All, length};
ghost use Rattle.kt_rec.specs.declared.table.Table.TheVariants.{Footprint};
ghost use Rattle.kt_cells.specs.Lines.{rows_lines};
ghost use Rattle.kt_cells.specs.Stops.{Tells};
ghost use Rattle.kt_schema.specs.Footprint.{footprint_csv, entry_rows, indexed_rows, AreRecords, IsEntryOf, HasRecords};
ghost use Rattle.kt_schema.specs.Tables.{kinds_of};

use crate::headings::heading;
use crate::record_sinks::Judged;
use crate::schema::{FOOTPRINT, FOOTPRINT_RECORD};
use crate::to_csv::body;
use kt_cells::{TableStop, push_record_lines, read_header, read_records, slices_give_slices};
use kt_money::Bytes;
use kt_rec::{FootprintIdx, Table};
use std::alloc::Global;

// How many bytes a record of the footprint file takes.
const FOOTPRINT_WIDTH: u64 = 12;

// The place of the first record, behind the header.
const FIRST_OFFSET: u64 = 16;

/// The text of the footprint: the records of each event in the order of the index.
///
/// Each row of the index names whole records of the file. An error is the first that is wrong in the file: its header,
/// then the fields of all records by row and column (the first column of a record is 2), then a record that is cut by
/// the end; or want of memory.
pub fn footprint_to_csv(
    alloc: Global,
    bytes: &[u8],
    index: &[FootprintIdx],
) -> Result<Bytes, TableStop>
    requires { All (IsEntryOf (length bytes.now)) index.now }
    ensures value { IfOk result (λ text. footprint_csv bytes.now index.now ≡ Ok text) }

    ensures refused { IfErr result (Tells (footprint_csv bytes.now index.now)) }
{
    let _extra = read_header(FOOTPRINT.number, 0, 0, bytes)?;
    let records = body(true, bytes);
    read_records(&FOOTPRINT_RECORD, 2, records, &mut Judged)?;
    let mut out = Bytes::new(alloc);
    out.append(heading(Table::Footprint))?;
    push_events(&mut out, index, records)?;
    Ok(out)
}

// Appends the lines of all events of the index. The error is want of memory.
fn push_events(out: &mut Bytes, index: &[FootprintIdx], records: &[u8]) -> Result<(), TableStop>
    requires records { (rows : List (List ℕ)) × AreRecords records.now rows × All (HasRecords (length rows)) index.now }
    ensures ok { OnOk result ((rows : List (List ℕ)) → AreRecords records.now rows → out.new ≡ out.old ++ rows_lines (kinds_of Footprint) (indexed_rows rows index.now)) }
    ensures memory { IfErr result (λ stop. stop ≡ TableStop.OutOfMemory) }
{
    for entry in index {
        match push_event(out, entry, records) {
            Ok(()) => {}
            Err(stop) => return Err(stop),
        }
    }
    Ok(())
}

// Appends the lines of the records of an event. The error is want of memory.
fn push_event(out: &mut Bytes, entry: &FootprintIdx, records: &[u8]) -> Result<(), TableStop>
    requires records { (rows : List (List ℕ)) × AreRecords records.now rows × HasRecords (length rows) entry.now }
    ensures ok { OnOk result ((rows : List (List ℕ)) → AreRecords records.now rows → out.new ≡ out.old ++ rows_lines (kinds_of Footprint) (entry_rows rows entry.now)) }
    ensures memory { IfErr result (λ stop. stop ≡ TableStop.OutOfMemory) }
{
    slices_give_slices();
    let first = (entry.offset - FIRST_OFFSET) / FOOTPRINT_WIDTH * FOOTPRINT_WIDTH;
    let size = entry.size / FOOTPRINT_WIDTH * FOOTPRINT_WIDTH;
    let behind = &records[first as usize..];
    let before = Some(u64::from(entry.event_id));
    let part = &behind[..size as usize];
    match push_record_lines(out, before, &FOOTPRINT_RECORD, 2, part) {
        Ok(()) => Ok(()),
        Err(stop) => Err(stop),
    }
}
