//! The values of a grid of texts.
//! The rule: docs/TABLES.md, "The first bad place".
ghost use Rattle.std.specs.Prelude.{◌≡◌, ◌==◌, ◌<◌, IfOk, IfErr, Ok};
ghost use Rattle.kt_cells.specs.Reading.{table_rows};
ghost use Rattle.kt_cells.specs.Stops.{Tells};
ghost use Rattle.kt_cells.specs.Texts.{text_value};

use crate::schema::{FOOTPRINT, Schema};
use kt_cells::{TableStop, Values, read_grid};
use kt_text::Grid;
use std::alloc::Global;

/// The values of a table, from the texts of its fields. In the footprint no event is below that of the row before.
///
/// An error is the first bad place, by row and then by column, both counted from 1; or want of memory.
pub fn schema_rows<const N: usize>(
    alloc: Global,
    schema: &Schema<N>,
    grid: &Grid<N>,
) -> Result<Values<N>, TableStop>
    requires { N < 100 }
    ensures value { IfOk result (λ values. table_rows text_value (schema.now.number == 4) 1 schema.now.kinds.now 0 1 grid.now ≡ Ok values) }

    ensures refused { IfErr result (Tells (table_rows text_value (schema.now.number == 4) 1 schema.now.kinds.now 0 1 grid.now)) }
{
    read_grid(alloc, grid, schema.kinds, schema.number == FOOTPRINT.number)
}
