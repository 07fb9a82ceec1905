//! The fields of a table's rows.
//! The rule: docs/TABLES.md, "Texts of tables".

ghost use Rattle.std.specs.Prelude.{◌≡◌, ◌<◌, [], length, map, slice_index_or};
ghost use Rattle.csv.specs.Records.{fields_of};
ghost use Rattle.kt_text.specs.Rows.{AreEven, cell};

use crate::records::record_field;
use csv::ByteRecord;
use std::marker::Model;

/// The fields of a table with `N` columns, row by row. Contracts see it as the list of its rows, each
/// a list of `N` fields of any bytes.
#[derive(Drop)]
pub struct Grid<const N: usize> {
    pub(crate) records: Vec<ByteRecord>,
}

impl<const N: usize> Model for Grid<N> {
    ghost use Rattle.std.specs.Prelude.{ℕ, List, map};
    ghost use Rattle.csv.specs.Records.{fields_of};
    ghost use Rattle.kt_text.specs.Rows.{AreEven};

    ghost Value = { List (List (List ℕ)) };

    ghost view = { λ g. map fields_of g.records.items };

    ghost invariant = { λ g. AreEven N (map fields_of g.records.items) };
}

impl<const N: usize> Grid<N> {
    /// How many rows there are.
    pub fn rows(&self) -> u64
        ensures value { result ≡ length self.now }
        ensures even { AreEven N self.now }
    {
        self.records.len() as u64
    }

    /// The record of a row, which is counted from 0.
    pub fn record(&self, row: u64) -> &ByteRecord
        requires row { row < length self.now }
        ensures value { fields_of result.now ≡ slice_index_or self.now row [] }
        ensures width { length (slice_index_or self.now row []) ≡ N }
    {
        record_of(&self.records, row as usize)
    }

    /// The field of a row and a column, both counted from 0.
    pub fn field(&self, row: u64, column: u32) -> &[u8]
        requires row { row < length self.now }
        requires column { column < N }
        ensures { result.now ≡ cell self.now row column }
    {
        record_field(self.record(row), column as usize)
    }
}

// The record of a row.
fn record_of(records: &Vec<ByteRecord>, row: usize) -> &ByteRecord
    requires { row < length (map fields_of records.now.items) }
    ensures { fields_of result.now ≡ slice_index_or (map fields_of records.now.items) row [] }
{
    &records[row]
}
