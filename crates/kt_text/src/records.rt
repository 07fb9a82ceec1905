//! The records of a CSV text, one after the other.
//! The rule: docs/TABLES.md, "Texts of tables".

ghost use Rattle.std.specs.Prelude.{◌≡◌, ◌≤◌, ◌<◌, [], length, true, slice_index_or, IfOk, IfErr};
ghost use Rattle.std.specs.Bool.{MatchBool};
ghost use Rattle.csv.specs.Reading.{has_failed, records, default_config, strip_bom};
ghost use Rattle.csv.specs.Records.{fields_of};
ghost use Rattle.kt_text.specs.Records.{StandsBetween, TakesRecord, bytes_left, records_left};

use csv::{ByteRecord, ErrorKind, Reader, ReaderBuilder};
use std::alloc::{AllocError, Global};

/// A reader before the first record of a text, which takes no record for a heading and records of any
/// length.
#[tactic(auto, using(crate::proofs::MachineLemmas::strip_bom_shorter), unfolding(crate::specs::Records::bytes_left, crate::specs::Records::records_left))]
pub fn reader_of(alloc: Global, text: &[u8]) -> Reader<&[u8]>
    ensures stands { StandsBetween result }
    ensures bytes { bytes_left result ≤ length text.now }
    ensures all { records_left result ≡ records default_config (strip_bom text.now) }
{
    ReaderBuilder::new()
        .has_headers(false)
        .flexible(true)
        .from_reader(alloc, text)
}

/// The next record into `row`, and whether there was one. An error is want of memory: the row has no field then, and the
/// reader has failed and gives no record more.
#[tactic(auto, using(crate::proofs::ReaderLemmas::next_is))]
pub fn next_record(reader: &mut Reader<&[u8]>, row: &mut ByteRecord) -> Result<bool, AllocError>
    requires { StandsBetween reader.old }
    ensures next { IfOk result (λ found. MatchBool found
        (TakesRecord reader.old reader.new (fields_of row.new)) (records_left reader.old ≡ [])) }

    ensures failed { IfErr result (λ _. has_failed reader.new ≡ true) }
    ensures emptied { IfErr result (λ _. fields_of row.new ≡ []) }
{
    match reader.read_byte_record(row) {
        Ok(found) => Ok(found),
        Err(error) => match error.into_kind() {
            // Records of any length are taken, and a slice is read without fault: what is left is want of
            // memory.
            ErrorKind::UnequalLengths { .. } => unreachable!(),
            _ => {
                row.clear();
                Err(AllocError)
            }
        },
    }
}

/// The field of a record at a column, counted from 0.
#[tactic(auto, using(crate::proofs::RowLemmas::field_within))]
pub fn record_field(row: &ByteRecord, column: usize) -> &[u8]
    requires { column < length (fields_of row.now) }
    ensures { result.now ≡ slice_index_or (fields_of row.now) column [] }
{
    row.get(column).unwrap()
}
