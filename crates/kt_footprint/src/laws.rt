//! The theorems that tie the text of a footprint to its file and its index, in memory and byte by byte.
//! The rules: docs/TABLES.md, "Footprint"; docs/CHECKS.md, "Sizes", "Keys", "Places in the footprint".
ghost use Rattle.kt_footprint.specs.GoRound.{FootprintFilesGoRound};
ghost use Rattle.kt_footprint.specs.RoundTrip.{FootprintsGoRound};

use kt_cells::{headers_are_read_back, records_are_read_back, texts_are_in_range};
use kt_schema::files_are_read_back;

/// The text of an accepted footprint comes back, in its written form, from the file and the index that are made of it, and the
/// index is one that the file may be read by; no event has more records than an event may have.
pub fn footprints_go_round()
    ensures { FootprintsGoRound }
{
    headers_are_read_back();
    records_are_read_back();
    texts_are_in_range();
}

/// Of an accepted text with at most 100,000 rows an event and 1,000,000 events, whose file has at most 2^30 bytes: the two
/// files that are made of it load as an index, which no check refuses, and give the text in its written form.
pub fn footprint_files_go_round()
    ensures { FootprintFilesGoRound }
{
    files_are_read_back();
    texts_are_in_range();
    footprints_go_round();
}
