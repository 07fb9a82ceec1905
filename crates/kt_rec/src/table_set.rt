//! A set of tables.
//! The rule: docs/TABLES.md, "Files".
ghost use Rattle.std.specs.Prelude.{◌≡◌, ◌||◌, false};
ghost use Rattle.kt_rec.specs.TableNames.{IsTableId};
ghost use Rattle.kt_rec.specs.TableSet.{is_in, place_of, is_same, no_tables, with_table};

use crate::table::TableId;

// A place for each table of the base and of each of the nine stages.
const PLACES: usize = 160;

/// A set of tables of the base and of the stages. Contracts see it by `is_in`.
#[derive(Clone, Copy)]
pub struct TableSet {
    present: [bool; PLACES],
}

fn place(id: TableId) -> usize
    requires { IsTableId id }
    ensures { result ≡ place_of id }
{
    id.stage as usize * 16 + id.table.number() as usize - 1
}

impl TableSet {
    /// No table.
    pub fn new() -> Self
        ensures exact { result ≡ no_tables }
        ensures absent { (id : _) → is_in result id ≡ false }
    {
        TableSet {
            present: [false; PLACES],
        }
    }

    /// Puts a table in, if it is not there yet.
    pub fn add(&mut self, id: TableId)
        requires { IsTableId id }
        ensures exact { self.new ≡ with_table self.old id }
        ensures value { (other : _) → IsTableId other → is_in self.new other ≡ (is_same id other || is_in self.old other) }
    {
        self.present[place(id)] = true;
    }

    /// Whether a table is in the set.
    pub fn has(&self, id: TableId) -> bool
        requires { IsTableId id }
        ensures value { result ≡ is_in self.now id }
    {
        self.present[place(id)]
    }
}
