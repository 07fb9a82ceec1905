//! From the text of a table to its file.
//! The rule: docs/TABLES.md, "Files of tables".
ghost use Rattle.std.specs.Prelude.{◌≡◌, ◌<◌, ◌++◌, false, true, map, drop, IfOk, IfErr, OnOk, OnErr, Ok};
ghost use Rattle.kt_cells.specs.Texts.{text_rows};
ghost use Rattle.kt_cells.specs.Reading.{and_then};
ghost use Rattle.kt_cells.specs.Stops.{Tells};
ghost use Rattle.kt_cells.specs.Taking.{HasMore};
ghost use Rattle.kt_rec.specs.declared.table.Table.TheVariants.{Footprint};
ghost use Rattle.kt_schema.specs.Conversions.{csv_bin, file_bytes, footprint_bytes, index_bytes, header_part};
ghost use Rattle.kt_schema.specs.Tables.{kinds_of};

use crate::index::IndexRecords;
use crate::record_sinks::{FootprintRecords, Records};
use crate::schema::FOOTPRINT;
use crate::typed_row::TypedRow;
use crate::visit::{RowVisitor, TableVisitor, visit_table};
use kt_cells::{Kind, TableStop, push_header, read_text};
use kt_money::Bytes;
use kt_rec::{Table, describe};
use std::alloc::{AllocError, Global};

/// Appends the header of a file that has one. An error is want of memory; then a part of it may stand behind what was there.
pub fn push_header_part(
    out: &mut Bytes,
    header: bool,
    number: u32,
    extra: u32,
) -> Result<(), AllocError>
    ensures ok { OnOk result (out.new ≡ out.old ++ header_part header number extra) }

    ensures kept { OnErr result (HasMore out.old out.new) }
{
    if header {
        push_header(out, number, extra)
    } else {
        Ok(())
    }
}

// Makes the file of a text.
#[derive(Clone, Copy)]
struct ToBin<'a> {
    alloc: Global,
    extra: u32,
    text: &'a [u8],
}

impl<'a> TableVisitor<(), Result<Bytes, TableStop>> for ToBin<'a> {
    ghost use Rattle.std.specs.Prelude.{◌≢◌, IfOk, IfErr};
    ghost use Rattle.kt_rec.specs.declared.table.Table.TheVariants.{FootprintIdx};

    ghost takes = { λ _ table. table ≢ FootprintIdx };

    ghost gives = { λ it table _ _ made. IfOk made (λ bytes. csv_bin table it.extra it.text.now ≡ Ok bytes) × IfErr made (Tells (csv_bin table it.extra it.text.now)) };
}

impl<'a, const N: usize> RowVisitor<N, (), Result<Bytes, TableStop>> for ToBin<'a> {
    // Each table has its own copy of this code, in which its kinds are known.
    #[inline(always)]
    fn visit<T: TypedRow<N>>(
        self,
        _world: &mut (),
        table: Table,
        kinds: &'static [Kind; N],
    ) -> Result<Bytes, TableStop> {
        let mut out = Bytes::new(self.alloc);
        push_header_part(&mut out, describe(table).header, table.number(), self.extra)?;
        let mut records = Records { out };
        read_text(self.alloc, self.text, kinds, false, &mut records)?;
        Ok(records.out)
    }
}

/// The file of a table, from its text. `extra` is the number of periods for `occurrence`, and 0 else.
///
/// `footprint_idx` is made from the text of the footprint. An error is the first bad place of the text: by row, in a row
/// the number of its fields first (column 0), then by column, both counted from 1 after the heading; or want of memory.
pub fn csv_to_bin(alloc: Global, table: Table, extra: u32, text: &[u8]) -> Result<Bytes, TableStop>
    ensures value { IfOk result (λ bytes. csv_bin table extra text.now ≡ Ok bytes) }

    ensures refused { IfErr result (Tells (csv_bin table extra text.now)) }
{
    match table {
        Table::Footprint => footprint(alloc, text),
        Table::FootprintIdx => footprint_index(alloc, text),
        _ => visit_table(ToBin { alloc, extra, text }, &mut (), table),
    }
}

// The footprint file, whose records leave the event out.
fn footprint(alloc: Global, text: &[u8]) -> Result<Bytes, TableStop>
    ensures value { IfOk result (λ bytes. and_then (text_rows true (kinds_of Footprint) text.now) (λ rows. Ok (footprint_bytes rows)) ≡ Ok bytes) }

    ensures refused { IfErr result (Tells (and_then (text_rows true (kinds_of Footprint) text.now) (λ rows. Ok (footprint_bytes rows)))) }
{
    let mut out = Bytes::new(alloc);
    push_header(&mut out, FOOTPRINT.number, 0)?;
    let mut records = FootprintRecords { out };
    read_text(alloc, text, FOOTPRINT.kinds, true, &mut records)?;
    Ok(records.out)
}

// The index of a footprint file.
fn footprint_index(alloc: Global, text: &[u8]) -> Result<Bytes, TableStop>
    ensures value { IfOk result (λ bytes. and_then (text_rows true (kinds_of Footprint) text.now) (λ rows. Ok (index_bytes rows)) ≡ Ok bytes) }

    ensures refused { IfErr result (Tells (and_then (text_rows true (kinds_of Footprint) text.now) (λ rows. Ok (index_bytes rows)))) }
{
    let mut records = IndexRecords::new(alloc);
    read_text(alloc, text, FOOTPRINT.kinds, true, &mut records)?;
    let out = records.finish()?;
    Ok(out)
}
