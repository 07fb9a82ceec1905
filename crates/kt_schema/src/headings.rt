//! The headings of the tables' texts.
//! The rule: docs/TABLES.md, "Columns".
ghost use Rattle.std.specs.Prelude.{◌≡◌};
ghost use Rattle.kt_rec.specs.Lines.{line};
ghost use Rattle.kt_schema.specs.Tables.{heading_of};

use kt_rec::{Table, describe};

/// The first line of a table's text: the names of its columns.
pub fn heading(table: Table) -> &'static [u8]
    ensures { result.now ≡ line (heading_of table) }
{
    describe(table).heading
}
