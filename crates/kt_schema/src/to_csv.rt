//! From the file of a table to its text.
//! The rule: docs/TABLES.md, "Texts of tables".
ghost use Rattle.std.specs.Prelude.{◌≡◌, ◌≢◌, ◌<◌, IfOk, IfErr, Ok};
ghost use Rattle.kt_cells.specs.Stops.{Tells};
ghost use Rattle.kt_schema.specs.Conversions.{bin_csv, extra_of, body_of};
ghost use Rattle.kt_schema.specs.Tables.{kinds_of};

use crate::typed_row::TypedRow;
use crate::visit::{RowVisitor, TableVisitor, visit_table};
use kt_cells::{HEADER_WIDTH, Kind, TableStop, push_record_lines, read_header};
use kt_money::Bytes;
use kt_rec::{Table, describe};
use std::alloc::Global;

/// The greatest number of periods.
pub const MOST_PERIODS: u32 = 100_000;

/// The number that the header of a file ends with, from `least` to `most`; 0 where it has no header. An error is what
/// is wrong with the header; there is none where the file has no header.
pub fn extra(
    header: bool,
    number: u32,
    least: u32,
    most: u32,
    bytes: &[u8],
) -> Result<u32, TableStop>
    ensures { result ≡ extra_of header number least most bytes.now }
{
    if header {
        read_header(number, least, most, bytes)
    } else {
        Ok(0)
    }
}

/// What stands behind the header of a file.
pub fn body(header: bool, bytes: &[u8]) -> &[u8]
    ensures { result.now ≡ body_of header bytes.now }
{
    if header {
        bytes.get(HEADER_WIDTH..).unwrap_or(&[])
    } else {
        bytes
    }
}

// Makes the text of a file.
#[derive(Clone, Copy)]
struct ToCsv<'a> {
    alloc: Global,
    bytes: &'a [u8],
}

impl<'a> TableVisitor<(), Result<Bytes, TableStop>> for ToCsv<'a> {
    ghost use Rattle.std.specs.Prelude.{⊤, IfOk, IfErr};

    ghost takes = { λ _ _. ⊤ };

    ghost gives = { λ it table _ _ made. IfOk made (λ text. bin_csv table it.bytes.now ≡ Ok text) × IfErr made (Tells (bin_csv table it.bytes.now)) };
}

impl<'a, const N: usize> RowVisitor<N, (), Result<Bytes, TableStop>> for ToCsv<'a> {
    // Each table has its own copy of this code, in which its kinds are known.
    #[inline(always)]
    fn visit<T: TypedRow<N>>(
        self,
        _world: &mut (),
        table: Table,
        kinds: &'static [Kind; N],
    ) -> Result<Bytes, TableStop> {
        let is = describe(table);
        let number = table.number();
        let _extra = extra(is.header, number, is.least_extra, is.most_extra, self.bytes)?;
        let mut out = Bytes::new(self.alloc);
        out.append(is.heading)?;
        push_record_lines(&mut out, None, kinds, 1, body(is.header, self.bytes))?;
        Ok(out)
    }
}

/// The text of a table, from its file; for the footprint see `footprint_to_csv`.
///
/// An error is the first that is wrong: the header, then the fields of the records by row and column, counted from 1,
/// then a record that is cut by the end; or want of memory.
pub fn bin_to_csv(alloc: Global, table: Table, bytes: &[u8]) -> Result<Bytes, TableStop>
    requires { table ≢ Table.Footprint }
    ensures value { IfOk result (λ text. bin_csv table bytes.now ≡ Ok text) }

    ensures refused { IfErr result (Tells (bin_csv table bytes.now)) }
{
    visit_table(ToCsv { alloc, bytes }, &mut (), table)
}
