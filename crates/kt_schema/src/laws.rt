//! Theorems over the definitions: what stands in a file is read back.
//! The rule: docs/TABLES.md, "Back again".
ghost use Rattle.kt_schema.specs.Laws.{FilesAreReadBack, TextsAreReadBack, TextsGoRound};

use kt_cells::{
    headers_are_read_back, lines_are_read_back, records_are_read_back, texts_are_in_range,
};

/// The file of rows in range gives those rows and its number back, for each table but the footprint.
pub fn files_are_read_back()
    ensures { FilesAreReadBack }
{
    headers_are_read_back();
    records_are_read_back();
}

/// The canonical text of rows in range gives them back, for each table but the index of the footprint.
pub fn texts_are_read_back()
    ensures { TextsAreReadBack }
{
    lines_are_read_back();
}

/// An accepted text that is made a file and a text again becomes the canonical text of its rows, for each table but the
/// footprint and its index.
pub fn texts_go_round()
    ensures { TextsGoRound }
{
    files_are_read_back();
    texts_are_in_range();
}
