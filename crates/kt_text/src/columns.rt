//! The fields of a CSV text whose rows have a fixed number of columns.
//! The rule: docs/TABLES.md, "Texts of tables".

ghost use Rattle.std.specs.Prelude.{◌≡◌, ℕ, List, [], None, IfOk, IfErr, MatchOption};
ghost use Rattle.std.specs.Bool.{MatchBool};
ghost use Rattle.csv.specs.Records.{fields_of};
ghost use Rattle.kt_text.specs.Rows.{csv_rows, first_ragged};
ghost use Rattle.kt_text.specs.FieldStop.{Explains};
ghost use Rattle.kt_text.specs.Records.{StandsBetween, TakesRecord, records_left};

use crate::grid::Grid;
use crate::records::{next_record, reader_of};
use csv::{ByteRecord, Reader};
use std::alloc::{AllocError, AllocFailed, Global};

/// Why the fields of a text are not given.
#[derive(Clone, Copy)]
pub enum FieldStop {
    /// A row has another number of fields than the table has columns.
    Columns {
        /// The first such row, counted from 1 after the heading.
        row: u64,
    },
    /// There is not enough memory.
    OutOfMemory,
}

impl<T: Drop> From<AllocFailed<T>> for FieldStop {
    ghost use Rattle.kt_text.specs.declared.columns.FieldStop.TheVariants.{OutOfMemory};

    ghost from_gives = { λ _ stop. stop ≡ OutOfMemory };

    fn from(_error: AllocFailed<T>) -> FieldStop {
        FieldStop::OutOfMemory
    }
}

impl From<AllocError> for FieldStop {
    ghost use Rattle.kt_text.specs.declared.columns.FieldStop.TheVariants.{OutOfMemory};

    ghost from_gives = { λ _ stop. stop ≡ OutOfMemory };

    fn from(_error: AllocError) -> FieldStop {
        FieldStop::OutOfMemory
    }
}

/// The fields of all records of a text but the first, its heading.
///
/// `Columns` where a row has not `N` fields, with the first such row; else `OutOfMemory` where memory
/// is wanting. A text without any record has no rows.
pub fn fields<const N: usize>(alloc: Global, text: &[u8]) -> Result<Grid<N>, FieldStop>
    ensures value { IfOk result (λ grid. grid ≡ csv_rows text.now) }
    ensures absent { IfOk result (λ _. first_ragged N (csv_rows text.now) ≡ None) }

    // A stop of columns names the first row with another number of fields.
    ensures refused { IfErr result (Explains N (csv_rows text.now)) }
{
    let mut reader = reader_of(alloc, text);
    if skip_heading(alloc, &mut reader)? {
        rows_left(alloc, &mut reader)
    } else {
        Ok(Grid {
            records: Vec::new(alloc),
        })
    }
}

// Whether the reader has a heading, which it then passes over. An error is want of memory.
fn skip_heading(alloc: Global, reader: &mut Reader<&[u8]>) -> Result<bool, AllocError>
    requires { StandsBetween reader.old }
    ensures { IfOk result (λ found. MatchBool found
        ((heading : List (List ℕ)) × TakesRecord reader.old reader.new heading) (records_left reader.old ≡ [])) }
{
    let mut heading = ByteRecord::new(alloc);
    next_record(reader, &mut heading)
}

// The rows that the reader has left.
fn rows_left<const N: usize>(
    alloc: Global,
    reader: &mut Reader<&[u8]>,
) -> Result<Grid<N>, FieldStop>
    requires { StandsBetween reader.old }
    ensures value { IfOk result (λ grid. grid ≡ records_left reader.old) }
    ensures absent { IfOk result (λ _. first_ragged N (records_left reader.old) ≡ None) }

    ensures refused { IfErr result (Explains N (records_left reader.old)) }
{
    let mut records = Vec::new(alloc);
    while let Some(row) = next_row(alloc, reader)? {
        if row.len() != N {
            return Err(FieldStop::Columns {
                row: records.len() as u64 + 1,
            });
        }
        records.push(row)?;
    }
    Ok(Grid { records })
}

// The next row that the reader has, if one is left. An error is want of memory.
fn next_row(alloc: Global, reader: &mut Reader<&[u8]>) -> Result<Option<ByteRecord>, AllocError>
    requires { StandsBetween reader.old }
    ensures { IfOk result (λ found. MatchOption found (records_left reader.old ≡ []) (λ row. TakesRecord reader.old reader.new (fields_of row))) }
{
    let mut row = ByteRecord::new(alloc);
    if next_record(reader, &mut row)? {
        Ok(Some(row))
    } else {
        Ok(None)
    }
}
