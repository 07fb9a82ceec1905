//! The text of a table, from its file, written in blocks.
//! The rules: docs/COMMANDS.md, "tobin and tocsv".
ghost use Rattle.std.specs.Prelude.{◌≡◌, ◌≢◌, ◌<◌, length, min, IfOk, IfErr, OnOk};
ghost use Rattle.kt_rec.specs.Lines.{line};
ghost use Rattle.kt_cells.specs.Records.{record_width};
ghost use Rattle.kt_cells.specs.Stops.{Tells};
ghost use Rattle.kt_schema.specs.Conversions.{bin_csv, bin_rows, body_of, body_rows};
ghost use Rattle.kt_schema.specs.Tables.{heading_of, kinds_of};
ghost use Rattle.kt_blocks.specs.Progress.{WritesText};
ghost use Rattle.kt_blocks.specs.Tables.{IsJudged};

use crate::pieces::{Pieces, write_pieces};
use crate::slices::slice;
use crate::stop::TextStop;
use kt_cells::{Kind, TableStop, push_record_lines, read_records, slices_give_slices};
use kt_money::Bytes;
use kt_out::{Fault, Sink};
use kt_rec::Table;
use kt_schema::*;
use std::alloc::Global;

/// The lines that are made at once.
const LINES: usize = 256;

/// The lines of the records of a table, each of `width` bytes.
#[derive(Clone, Copy)]
struct Lines<'a, const N: usize> {
    kinds: &'a [Kind; N],
    width: usize,
    records: &'a [u8],
}

impl<'a, const N: usize> Pieces for Lines<'a, N> {
    ghost use Rattle.std.specs.Prelude.{◌/◌, ◌+◌, ◌*◌, drop, length};
    ghost use Rattle.kt_cells.specs.Lines.{rows_lines};
    ghost use Rattle.kt_cells.specs.Records.{record_rows};
    ghost use Rattle.kt_blocks.specs.Tables.{AreLines, rows_or_none};

    ghost is_ready = { λ lines. AreLines N lines.kinds.now lines.width lines.records.now };

    ghost pieces = { λ lines. length lines.records.now / lines.width / 256 + 1 };

    ghost rest = { λ lines piece. rows_lines lines.kinds.now (drop (piece * 256) (rows_or_none (record_rows 1 lines.kinds.now lines.records.now))) };

    fn count(&self) -> usize {
        let (_kinds, width, records) = (self.kinds, self.width, self.records);
        records.len() / width / LINES + 1
    }

    #[inline(always)]
    fn push(&self, index: usize, out: &mut Bytes) -> Result<(), Fault> {
        slices_give_slices();
        let (kinds, width, records) = (self.kinds, self.width, self.records);
        let first = index * LINES;
        let count = lines_of(records.len() / width - first);
        let part = slice(records, width, first, count);
        match push_record_lines(out, None, kinds, 1, part) {
            Ok(()) => Ok(()),
            Err(_) => Err(Fault::OutOfMemory),
        }
    }
}

// How many lines are made at once, where so many are left.
fn lines_of(left: usize) -> usize
    ensures { result ≡ min 256 left }
{
    if left < LINES { left } else { LINES }
}

/// The beginning of a table's text: its heading.
pub(crate) fn start_of(alloc: Global, table: Table) -> Result<Bytes, TableStop>
    ensures value { IfOk result (λ text. text ≡ line (heading_of table)) }

    ensures memory { IfErr result (λ stop. stop ≡ TableStop.OutOfMemory) }
{
    let mut text = Bytes::new(alloc);
    match text.append(heading(table)) {
        Ok(()) => Ok(text),
        Err(_) => Err(TableStop::OutOfMemory),
    }
}

// Judges a file: its header and all records.
#[inline(always)]
fn judge<const N: usize>(
    schema: &Schema<N>,
    least: u32,
    most: u32,
    bytes: &[u8],
) -> Result<(), TableStop>
    requires size { N < 100 }
    requires some { 0 < N }
    ensures ok { OnOk result (IsJudged schema.now.kinds.now (body_of schema.now.header bytes.now) (body_rows schema.now.header schema.now.number least most 1 schema.now.kinds.now bytes.now)) }

    ensures refused { IfErr result (Tells (body_rows schema.now.header schema.now.number least most 1 schema.now.kinds.now bytes.now)) }
{
    let _extra = extra(schema.header, schema.number, least, most, bytes)?;
    read_records(schema.kinds, 1, body(schema.header, bytes), &mut Judged)
}

// Judges the file of a table and writes its text. Each table has its own copy of this code, in which its kinds are known.
#[inline(always)]
fn write_lines<const N: usize, K: Sink>(
    alloc: Global,
    table: Table,
    schema: &Schema<N>,
    width: usize,
    least: u32,
    most: u32,
    bytes: &[u8],
    sink: &mut K,
) -> Result<(), TextStop>
    requires size { N < 100 }
    requires some { 0 < N }
    requires columns { length schema.now.kinds.now ≡ N }
    requires wide { 0 < width }
    requires width { width ≡ record_width schema.now.kinds.now }
    requires kinds { kinds_of table ≡ schema.now.kinds.now }
    requires rows { bin_rows table bytes.now ≡ body_rows schema.now.header schema.now.number least most 1 schema.now.kinds.now bytes.now }
    ensures { WritesText (bin_csv table bytes.now) (K.state sink.old) (K.state sink.new) result }
{
    if let Err(stop) = judge(schema, least, most, bytes) {
        return Err(TextStop::Refused(stop));
    }
    let start = match start_of(alloc, table) {
        Ok(start) => start,
        Err(stop) => return Err(TextStop::Refused(stop)),
    };
    let lines = Lines {
        kinds: schema.kinds,
        width,
        records: body(schema.header, bytes),
    };
    match write_pieces(&lines, start, sink) {
        Ok(()) => Ok(()),
        Err(fault) => Err(TextStop::Unwritten(fault)),
    }
}

/// Writes the text of a table, from its file, a block of 64 KiB at a time; for the footprint see `write_footprint`.
///
/// The whole file is judged first, and one that is refused writes nothing: the first that is wrong is told, as
/// `bin_to_csv` tells it. After a failed write some front of the text is written.
#[tactic(auto, unfolding(kt_cells::specs::Records::record_width))]
pub fn write_csv<K: Sink>(
    alloc: Global,
    table: Table,
    bytes: &[u8],
    sink: &mut K,
) -> Result<(), TextStop>
    requires { table ≢ Table.Footprint }
    ensures { WritesText (bin_csv table bytes.now) (K.state sink.old) (K.state sink.new) result }
{
    macro_rules! lines {
        ($schema:expr, $width:expr) => {
            write_lines(alloc, table, &$schema, $width, 0, 0, bytes, sink)
        };
    }
    match table {
        Table::Footprint => unreachable!(),
        Table::Occurrence => {
            write_lines(alloc, table, &OCCURRENCE, 20, 1, MOST_PERIODS, bytes, sink)
        }
        Table::Events => lines!(EVENTS, 4),
        Table::Items => lines!(ITEMS, 20),
        Table::Coverages => lines!(COVERAGES, 12),
        Table::FootprintIdx => lines!(FOOTPRINT_IDX, 20),
        Table::Vulnerability => lines!(VULNERABILITY, 16),
        Table::DamageBinDict => lines!(DAMAGE_BIN_DICT, 20),
        Table::Random => lines!(RANDOM, 4),
        Table::FmProgramme => lines!(FM_PROGRAMME, 12),
        Table::FmPolicytc => lines!(FM_POLICYTC, 16),
        Table::FmProfile => lines!(FM_PROFILE, 60),
        Table::FmXref => lines!(FM_XREF, 12),
        Table::GulSummaryXref => lines!(GUL_SUMMARY_XREF, 12),
        Table::FmSummaryXref => lines!(FM_SUMMARY_XREF, 12),
        Table::ReturnPeriods => lines!(RETURN_PERIODS, 4),
    }
}
