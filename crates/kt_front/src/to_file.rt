//! The file of a table, made of the source, a text, as its parts are read.
//! The rules: docs/COMMANDS.md, "tobin and tocsv".
ghost use Rattle.std.specs.Prelude.{◌≡◌, ◌<◌, ℕ, List, Ok, false};
ghost use Rattle.kt_cells.specs.Reading.{and_then};
ghost use Rattle.kt_cells.specs.Texts.{text_rows};
ghost use Rattle.kt_rec.specs.declared.table.Table.TheVariants.{Footprint, FootprintIdx};
ghost use Rattle.kt_schema.specs.Conversions.{csv_bin, file_bytes};
ghost use Rattle.kt_front.specs.SourceText.{MakesOf};

use crate::text_source::read_rows;
use kt_cells::push_header;
use kt_ends::ToolStop;
use kt_money::Bytes;
use kt_out::Source;
use kt_rec::Table;
use kt_schema::*;
use std::alloc::Global;

// The file of a table whose records have all its columns. Each table has its own copy of this code, in which its kinds are known.
#[inline(always)]
fn table_file<const N: usize, S: Source>(
    alloc: Global,
    table: Table,
    schema: &Schema<N>,
    extra: u32,
    source: &mut S,
) -> Result<Bytes, ToolStop>
    requires size { N < 100 }
    requires some { 0 < N }
    requires schema { (text : List ℕ) → csv_bin table extra text ≡ and_then (text_rows false schema.now.kinds.now text) (λ rows. Ok (file_bytes schema.now.header schema.now.number extra schema.now.kinds.now rows)) }
    ensures { MakesOf (csv_bin table extra) (S.state source.old) (S.state source.new) result }
{
    let mut out = Bytes::new(alloc);
    push_header_part(&mut out, schema.header, schema.number, extra)?;
    let mut records = Records { out };
    match read_rows(alloc, source, schema.kinds, false, &mut records) {
        Ok(()) => Ok(records.out),
        Err(stop) => Err(stop),
    }
}

// The footprint file, whose records leave the event out.
fn footprint_file<S: Source>(alloc: Global, source: &mut S) -> Result<Bytes, ToolStop>
    ensures { (extra : ℕ) → MakesOf (csv_bin Footprint extra) (S.state source.old) (S.state source.new) result }
{
    let mut out = Bytes::new(alloc);
    push_header(&mut out, FOOTPRINT.number, 0)?;
    let mut records = FootprintRecords { out };
    match read_rows(alloc, source, FOOTPRINT.kinds, true, &mut records) {
        Ok(()) => Ok(records.out),
        Err(stop) => Err(stop),
    }
}

// The index of a footprint file.
fn index_file<S: Source>(alloc: Global, source: &mut S) -> Result<Bytes, ToolStop>
    ensures { (extra : ℕ) → MakesOf (csv_bin FootprintIdx extra) (S.state source.old) (S.state source.new) result }
{
    let mut records = IndexRecords::new(alloc);
    match read_rows(alloc, source, FOOTPRINT.kinds, true, &mut records) {
        Ok(()) => {
            let file = records.finish()?;
            Ok(file)
        }
        Err(stop) => Err(stop),
    }
}

/// The file of a table, made of the source, its text, which is read to its end. `extra` is the number of periods for
/// `occurrence`, and 0 else. The index of the footprint is made of the text of the footprint.
///
/// The first bad place of the text is refused as `csv_to_bin` refuses it, if the source is not too large.
pub(crate) fn source_file<S: Source>(
    alloc: Global,
    table: Table,
    extra: u32,
    source: &mut S,
) -> Result<Bytes, ToolStop>
    ensures { MakesOf (csv_bin table extra) (S.state source.old) (S.state source.new) result }
{
    macro_rules! file {
        ($schema:expr) => {
            table_file(alloc, table, &$schema, extra, source)
        };
    }
    match table {
        Table::Footprint => footprint_file(alloc, source),
        Table::FootprintIdx => index_file(alloc, source),
        Table::Events => file!(EVENTS),
        Table::Items => file!(ITEMS),
        Table::Coverages => file!(COVERAGES),
        Table::Vulnerability => file!(VULNERABILITY),
        Table::DamageBinDict => file!(DAMAGE_BIN_DICT),
        Table::Random => file!(RANDOM),
        Table::FmProgramme => file!(FM_PROGRAMME),
        Table::FmPolicytc => file!(FM_POLICYTC),
        Table::FmProfile => file!(FM_PROFILE),
        Table::FmXref => file!(FM_XREF),
        Table::GulSummaryXref => file!(GUL_SUMMARY_XREF),
        Table::FmSummaryXref => file!(FM_SUMMARY_XREF),
        Table::Occurrence => file!(OCCURRENCE),
        Table::ReturnPeriods => file!(RETURN_PERIODS),
    }
}
