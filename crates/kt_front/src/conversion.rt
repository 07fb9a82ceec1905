//! The tools that give the source, a table in one form, in its other form.
//! The rules: docs/COMMANDS.md, "tobin and tocsv".
ghost use Rattle.std.specs.Prelude.{◌≡◌, ◌≢◌, false};
ghost use Rattle.kt_ends.specs.Ending.{StreamToolEnds};
ghost use Rattle.kt_front.specs.Converting.{EndsText, IsTableStop, conversion_uses, convert_outcome, converted, within_limit};
ghost use Rattle.kt_rec.specs.declared.table.Table.TheVariants.{Footprint};
ghost use Rattle.kt_schema.specs.Conversions.{bin_csv, csv_bin};
ghost use Rattle.kt_words.specs.Command.{IsConversion};

use crate::stops::table_stop;
use crate::to_file::source_file;
use crate::whole_source::{read_whole, source_label};
use kt_blocks::{TextStop, write_csv};
use kt_cells::TableStop;
use kt_ends::{ToolStop, write_stop};
use kt_out::{Sink, Source, write_all};
use kt_rec::Table;
use kt_words::Conversion;
use std::alloc::Global;

/// How the refusal of the source ends the tool.
pub fn source_stop(alloc: Global, stop: TableStop) -> ToolStop
    ensures { IsTableStop stop result }
{
    match source_label(alloc) {
        Ok(name) => table_stop(name, stop),
        Err(_) => ToolStop::NoMemory,
    }
}

/// How the tool ends by how the writing of its text did. An error is the refusal of the source, the fault of the sink,
/// or want of memory.
pub fn text_end(alloc: Global, written: Result<(), TextStop>) -> Result<(), ToolStop>
    ensures { EndsText written result }
{
    match written {
        Ok(()) => Ok(()),
        Err(TextStop::Refused(stop)) => Err(source_stop(alloc, stop)),
        Err(TextStop::Unwritten(fault)) => Err(write_stop(fault)),
    }
}

// Writes the file of a table, made of the source, its text, once it is whole.
fn convert_to_file<S: Source, K: Sink>(
    alloc: Global,
    table: Table,
    periods: u32,
    source: &mut S,
    sink: &mut K,
) -> Result<(), ToolStop>
    ensures { StreamToolEnds (conversion_uses false) (λ _ bytes. within_limit (λ text. converted (csv_bin table periods text)) bytes) (S.state source.old) (S.state source.new) (K.state sink.old) (K.state sink.new) result }
{
    let file = match source_file(alloc, table, periods, source) {
        Ok(file) => file,
        Err(stop) => return Err(stop),
    };
    match write_all(sink, file.as_slice()) {
        Ok(()) => Ok(()),
        Err(fault) => Err(write_stop(fault)),
    }
}

// Reads the whole source, the file of a table, and writes its text in blocks.
fn convert_to_text<S: Source, K: Sink>(
    alloc: Global,
    table: Table,
    source: &mut S,
    sink: &mut K,
) -> Result<(), ToolStop>
    requires { table ≢ Footprint }
    ensures { StreamToolEnds (conversion_uses false) (λ _ bytes. within_limit (λ file. converted (bin_csv table file)) bytes) (S.state source.old) (S.state source.new) (K.state sink.old) (K.state sink.new) result }
{
    let bytes = match read_whole(alloc, source) {
        Ok(bytes) => bytes,
        Err(stop) => return Err(stop),
    };
    text_end(alloc, write_csv(alloc, table, bytes.as_slice(), sink))
}

/// Reads the whole source and writes its other form: a file once it is whole, a text in blocks. An error is the refusal
/// of the source, which has written nothing then, a fault of the source or of the sink, or want of memory.
pub fn convert<S: Source, K: Sink>(
    alloc: Global,
    conversion: Conversion,
    source: &mut S,
    sink: &mut K,
) -> Result<(), ToolStop>
    requires { IsConversion conversion }
    ensures { StreamToolEnds (conversion_uses false) (λ _ bytes. convert_outcome conversion bytes) (S.state source.old) (S.state source.new) (K.state sink.old) (K.state sink.new) result }
{
    match conversion {
        Conversion::ToFile { table, periods } => {
            convert_to_file(alloc, table, periods, source, sink)
        }
        Conversion::ToText { table } => convert_to_text(alloc, table, source, sink),
    }
}
