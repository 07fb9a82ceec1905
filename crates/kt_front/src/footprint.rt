//! The tool that gives the source, a footprint, as text by its index.
//! The rules: docs/COMMANDS.md, "tobin and tocsv".
ghost use Rattle.std.specs.Prelude.{◌≡◌, Some, None, OnOk, IfErr, length, true};
ghost use Rattle.kt_checks.specs.TableChecks.{is_misplaced};
ghost use Rattle.kt_ends.specs.Ending.{StreamToolEnds};
ghost use Rattle.kt_keys.specs.FirstRow.{first_where};
ghost use Rattle.kt_front.specs.Converting.{StopsText, conversion_uses};
ghost use Rattle.kt_front.specs.FootprintText.{IsPlaceStop, footprint_text, text_of};

use crate::conversion::text_end;
use crate::whole_source::read_whole;
use kt_blocks::write_footprint;
use kt_checks::first_misplaced;
use kt_ends::{Refusal, ToolStop};
use kt_load::file_name;
use kt_out::{Sink, Source};
use kt_rec::{FootprintIdx, Table, TableId};
use kt_tables::Portfolio;
use std::alloc::Global;

/// The check of the index for the size of the footprint.
const PLACE_CHECK: u32 = 9;

/// The stop for a row of the index that lies outside the footprint.
fn place_stop(alloc: Global, row: u64) -> ToolStop
    ensures { IsPlaceStop row result }
{
    let index = TableId {
        stage: 0,
        table: Table::FootprintIdx,
    };
    match file_name(alloc, index) {
        Ok(name) => ToolStop::Refused(Refusal::Check {
            number: PLACE_CHECK,
            name,
            row,
        }),
        Err(_) => ToolStop::NoMemory,
    }
}

/// Checks that each row of an index names whole records of a footprint.
fn check_places(alloc: Global, index: &[FootprintIdx], bytes: &[u8]) -> Result<(), ToolStop>
    ensures ok { OnOk result (first_where (is_misplaced (length bytes.now)) index.now ≡ None) }

    ensures refused { IfErr result (StopsText (text_of index.now bytes.now)) }
{
    match first_misplaced(bytes.len() as u64, index) {
        Some(row) => Err(place_stop(alloc, row)),
        None => Ok(()),
    }
}

/// Reads the whole source, a footprint, and writes its text by the index, in blocks.
fn write_text<S: Source, K: Sink>(
    alloc: Global,
    index: &[FootprintIdx],
    source: &mut S,
    sink: &mut K,
) -> Result<(), ToolStop>
    ensures { StreamToolEnds (conversion_uses true) (λ _ bytes. footprint_text index.now bytes) (S.state source.old) (S.state source.new) (K.state sink.old) (K.state sink.new) result }
{
    let bytes = match read_whole(alloc, source) {
        Ok(bytes) => bytes,
        Err(stop) => return Err(stop),
    };
    if let Err(stop) = check_places(alloc, index, bytes.as_slice()) {
        return Err(stop);
    }
    text_end(alloc, write_footprint(alloc, bytes.as_slice(), index, sink))
}

/// Reads the whole source, the footprint, and writes its text by the index of a portfolio. An error is that the source
/// is too large, that a row of the index has no place in it, or its first bad place, all of which have written nothing;
/// a fault of the source or of the sink; or want of memory.
pub fn footprint_to_text<S: Source, K: Sink>(
    alloc: Global,
    portfolio: &Portfolio,
    source: &mut S,
    sink: &mut K,
) -> Result<(), ToolStop>
    ensures { StreamToolEnds (conversion_uses true) (λ _ bytes. footprint_text portfolio.now.rows.footprint_idx bytes) (S.state source.old) (S.state source.new) (K.state sink.old) (K.state sink.new) result }
{
    let index = portfolio.tables().footprint_idx.as_slice();
    write_text(alloc, index, source, sink)
}
