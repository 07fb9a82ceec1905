//! The check of the places that the footprint's index names in the footprint file.
//! The rule: docs/CHECKS.md, "Places in the footprint".
ghost use Rattle.std.specs.Prelude.{◌≡◌};
ghost use Rattle.kt_rec.specs.Rows.{rows_of};
ghost use Rattle.kt_keys.specs.FirstRow.{first_where};
ghost use Rattle.kt_checks.specs.TableChecks.{is_misplaced, place_check};

use kt_keys::{Need, Refusal, base, has_both};
use kt_rec::{FootprintIdx, Table, Tables};

/// The bytes of the footprint file's header.
const HEADER: u64 = 16;

/// The bytes of a record of the footprint file.
const RECORD: u64 = 12;

/// The most bytes that the records of an event may have.
const EVENT: u64 = 1_200_000;

/// Whether the records of an event do not lie in a footprint file of so many bytes as whole records, or are too many.
fn is_misplaced(file_size: u64, row: &FootprintIdx) -> bool
    ensures value { result ≡ is_misplaced file_size row.now }
{
    let FootprintIdx { offset, size, .. } = *row;
    offset < HEADER
        || (offset - HEADER) % RECORD != 0
        || size % RECORD != 0
        || size > EVENT
        || u128::from(offset) + u128::from(size) > u128::from(file_size)
}

/// The first row of the footprint's index, counted from 1, whose records do not lie in a footprint file of `file_size`
/// bytes as whole records behind its header, or have more than 1,200,000 bytes; none where each row's do and have not.
pub fn first_misplaced(file_size: u64, index: &[FootprintIdx]) -> Option<u64>
    ensures value { result ≡ first_where (is_misplaced file_size) index.now }
{
    for (place, row) in index.iter().enumerate() {
        if is_misplaced(file_size, row) {
            return Some(place as u64 + 1);
        }
    }
    None
}

/// Check 9: the records of an event do not lie in the footprint file as whole records, or are too many.
pub(crate) fn place_check(tables: &Tables, need: &Need) -> Option<Refusal>
    ensures value { result ≡ place_check (rows_of tables.now) need.now }
{
    let row = first_misplaced(tables.footprint_size, &tables.footprint_idx);
    let made = has_both(need, Table::FootprintIdx, Table::Footprint);
    Refusal::of(9, base(Table::FootprintIdx), made, row)
}
