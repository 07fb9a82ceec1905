//! The values of a table's rows.
//! The rule: docs/ARCHITECTURE.md, "One form for each thing".
ghost use Rattle.std.specs.Prelude.{◌≡◌, ◌<◌, [], length};
ghost use Rattle.kt_cells.specs.Cells.{value_at};

use std::alloc::Global;
use std::marker::Model;

/// The values of a table with `N` columns, row by row: counts, cents and parts per million, each by the kind of its
/// column. Contracts see the list of the rows, each a list of `N` numbers.
#[derive(Drop)]
pub struct Values<const N: usize> {
    pub(crate) rows: Vec<[u64; N]>,
}

impl<const N: usize> Model for Values<N> {
    ghost use Rattle.std.specs.Prelude.{ℕ, List};

    ghost Value = { List (List ℕ) };

    ghost view = { λ v. v.rows.items };
}

impl<const N: usize> Values<N> {
    /// No row yet. Takes no memory.
    pub fn new(alloc: Global) -> Self
        requires { N < 100 }
        ensures value { result ≡ [] }
    {
        Values {
            rows: Vec::new(alloc),
        }
    }

    /// How many rows there are.
    pub fn rows(&self) -> u64
        ensures value { result ≡ length self.now }
    {
        self.rows.len() as u64
    }

    /// The rows.
    pub fn as_slice(&self) -> &[[u64; N]]
        ensures value { result.now ≡ self.now }
    {
        self.rows.as_slice()
    }

    /// The value of a row and a column, both counted from 0.
    pub fn at(&self, row: u64, column: u32) -> u64
        requires size { N < 100 }
        requires row { row < length self.now }
        requires column { column < N }
        ensures value { result ≡ value_at self.now row column }
    {
        self.rows[row as usize][column as usize]
    }
}
