//! Parts of the records of a file.
//! The rule: docs/TABLES.md, "Files of tables".
ghost use Rattle.std.specs.Prelude.{◌≡◌, ◌≤◌, ◌<◌, ◌+◌, ◌*◌, ◌/◌, length, take, drop};

/// So many records from a place on.
pub(crate) fn slice(records: &[u8], width: usize, first: usize, count: usize) -> &[u8]
    requires some { 0 < width }
    requires within { first + count ≤ length records.now / width }
    ensures { result.now ≡ take (count * width) (drop (first * width) records.now) }
{
    let behind = &records[first * width..];
    &behind[..count * width]
}
