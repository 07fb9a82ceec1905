//! From the files of the tables to their rows.
//! The rule: docs/TABLES.md, "Files of tables".
ghost use Rattle.std.specs.Prelude.{◌≡◌, ◌++◌, ◌<◌, ◌≤◌, IfOk, IfErr, OnOk, OnErr, Ok, All, map};
ghost use Rattle.kt_cells.specs.Ranges.{AreRows, FitsBytes};
ghost use Rattle.kt_cells.specs.Stops.{Tells};
ghost use Rattle.kt_rec.specs.TableNames.{IsTableId};
ghost use Rattle.kt_schema.specs.Conversions.{body_rows};
ghost use Rattle.kt_schema.specs.Loading.{HasRowsOf, Loads, loaded_rows};
ghost use Rattle.kt_schema.specs.Tables.{kinds_of};

use crate::to_csv::{body, extra};
use crate::typed_row::TypedRow;
use crate::visit::{RowVisitor, TableVisitor, visit_table};
use kt_cells::{Kind, RowSink, TableStop, read_records};
use kt_rec::{Table, TableId, Tables, describe};
use std::alloc::{AllocError, Global};

// Rows, each made of its values.
#[derive(Drop)]
struct TypedRows<T> {
    rows: Vec<T>,
}

impl<const N: usize, T: TypedRow<N>> RowSink<N> for TypedRows<T> {
    ghost takes = { FitsBytes (kinds_of T.table) };

    ghost takes_to = { λ _ start rows list. map T.values list.rows.items ≡ map T.values start.rows.items ++ rows };

    #[inline(always)]
    fn take(&mut self, _kinds: &[Kind; N], row: &[u64; N]) -> Result<(), AllocError> {
        self.rows.push(T::from_values(row))?;
        Ok(())
    }
}

// Reads the file of a table.
#[derive(Clone, Copy)]
struct Reading<'a> {
    alloc: Global,
    id: TableId,
    bytes: &'a [u8],
    ghost staged: { id.stage < 10 },
}

impl<'a> TableVisitor<Tables, Result<(), TableStop>> for Reading<'a> {
    ghost use Rattle.std.specs.Prelude.{OnOk, OnErr, IfErr};

    ghost takes = { λ it table. it.id.table ≡ table };

    ghost gives = { λ it _ old new made. OnOk made (Loads it.id it.bytes.now old new) × IfErr made (Tells (loaded_rows it.id.table it.bytes.now)) × OnErr made (new ≡ old) };
}

impl<'a, const N: usize> RowVisitor<N, Tables, Result<(), TableStop>> for Reading<'a> {
    // Each table has its own copy of this code, in which its kinds are known.
    #[inline(always)]
    fn visit<T: TypedRow<N>>(
        self,
        world: &mut Tables,
        table: Table,
        kinds: &'static [Kind; N],
    ) -> Result<(), TableStop> {
        let mut rows: TypedRows<T> = TypedRows {
            rows: Vec::new(self.alloc),
        };
        let is = describe(table);
        let number = table.number();
        let extra = extra(is.header, number, is.least_extra, is.most_extra, self.bytes)?;
        read_records(kinds, 1, body(is.header, self.bytes), &mut rows)?;
        T::keep(world, self.id.stage as usize, extra, &mut rows.rows);
        Ok(())
    }
}

/// Puts the rows of a file into the list of its table, in place of what is there, and for `occurrence` the number of
/// periods into `periods`. Of the footprint the header alone is read, from its first 16 bytes or all where there are
/// fewer. Each row is in the ranges of its kinds.
///
/// An error is the first that is wrong: the header, then the fields of the records by row and column, counted from 1,
/// then a record that is cut by the end; or want of memory. Then `into` is as it was.
pub fn read_bin(
    alloc: Global,
    id: TableId,
    bytes: &[u8],
    into: &mut Tables,
) -> Result<(), TableStop>
    requires { IsTableId id }
    ensures ok { OnOk result (Loads id bytes.now into.old into.new) }

    ensures refused { IfErr result (Tells (loaded_rows id.table bytes.now)) }

    ensures unchanged { OnErr result (into.new ≡ into.old) }
{
    match id.table {
        Table::Footprint => {
            let _extra = extra(true, Table::Footprint.number(), 0, 0, bytes)?;
            Ok(())
        }
        _ => visit_table(Reading { alloc, id, bytes }, into, id.table),
    }
}
