//! Theorems over the definitions: what is written is read back.
//! The rule: docs/TABLES.md, "Back again".
ghost use Rattle.kt_cells.specs.Laws.{RecordsAreReadBack, HeadersAreReadBack, LinesAreReadBack, SlicesGiveSlices, TextsAreInRange};

use kt_text::{amounts_are_read_back, counts_are_read_back, rows_are_read_back};

/// Rows in range are read back from their records.
pub fn records_are_read_back()
    ensures { RecordsAreReadBack }
{}

/// A header is read back.
pub fn headers_are_read_back()
    ensures { HeadersAreReadBack }
{}

/// Rows in range and in order are read back from their lines.
pub fn lines_are_read_back()
    ensures { LinesAreReadBack }
{
    counts_are_read_back();
    amounts_are_read_back();
    rows_are_read_back();
}

/// The rows of a text are in range, and in order where they are ordered.
pub fn texts_are_in_range()
    ensures { TextsAreInRange }
{}

/// The records of a slice that begins and ends with whole ones give those rows.
pub fn slices_give_slices()
    ensures { SlicesGiveSlices }
{}
