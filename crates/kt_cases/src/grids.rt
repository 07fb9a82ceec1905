//! The values of a table's text, by way of its fields.
//! The language: README.md.
//! The rules: docs/HOSTILE_USE.md, "Cases"; docs/PROVING.md, "Tests".
ghost use Rattle.std.specs.Prelude.{◌<◌};

use kt_ends::status_of;
use kt_rec::Name;
use kt_schema::{Schema, TableStop, schema_rows};
use kt_script::{NotTaken, Seen, ended};
use kt_text::{FieldStop, Grid, fields};
use kt_tools::table_stop;
use std::alloc::Global;

/// The refusal of a text.
fn refused(alloc: Global, stop: TableStop) -> Result<Seen, NotTaken> {
    let mut name = Name::new(alloc);
    name.append(b"source")?;
    ended(alloc, status_of(Err(table_stop(name, stop))))
}

/// The values of rows of fields, or the first bad place.
fn rows_seen<const N: usize>(
    alloc: Global,
    schema: &Schema<N>,
    grid: &Grid<N>,
) -> Result<Seen, NotTaken>
    requires { N < 100 }
{
    match schema_rows(alloc, schema, grid) {
        Ok(values) => Ok(Seen::of_text(alloc, format!(in alloc; "{:?}", values.as_slice())?)),
        Err(stop) => refused(alloc, stop),
    }
}

/// The values of a text of a table, or the first bad place.
pub(crate) fn values_seen<const N: usize>(
    alloc: Global,
    schema: &Schema<N>,
    text: &[u8],
) -> Result<Seen, NotTaken>
    requires { N < 100 }
{
    match fields::<N>(alloc, text) {
        Ok(grid) => rows_seen(alloc, schema, &grid),
        Err(FieldStop::Columns { row }) => {
            Ok(Seen::of_text(alloc, format!(in alloc; "row {row}: columns")?))
        }
        Err(FieldStop::OutOfMemory) => Err(NotTaken),
    }
}
