//! The header of a binary table.
//! The rule: docs/TABLES.md, "Files of tables".
ghost use Rattle.std.specs.Prelude.{◌≡◌, ◌++◌, OnOk, OnErr};
ghost use Rattle.kt_cells.specs.Header.{header_extra, header_bytes};
ghost use Rattle.kt_cells.specs.Taking.{HasMore};

use crate::stop::TableStop;
use byteorder::{ByteOrder, LittleEndian};
use kt_money::Bytes;
use kt_rec::checked;
use std::alloc::AllocError;

/// How many bytes a header takes.
pub const HEADER_WIDTH: usize = 16;

// The bytes KTWC, read as a number.
const MARK: u32 = 1_129_796_683;

// The only version.
const VERSION: u32 = 1;

/// The number that a header ends with, which lies from `least` to `most`. An error is the first number of the header
/// that is not that of this table: too few bytes or another mark, another table, another version, a number out of range.
#[tactic(auto, unfolding(crate::specs::Header::header_extra))]
pub fn read_header(number: u32, least: u32, most: u32, bytes: &[u8]) -> Result<u32, TableStop>
    ensures exact { result ≡ header_extra number least most bytes.now }
{
    if bytes.len() < HEADER_WIDTH || LittleEndian::read_u32(bytes) != MARK {
        return Err(TableStop::NotProfile);
    }
    let found = LittleEndian::read_u32(&bytes[4..]);
    if found != number {
        return Err(TableStop::WrongTable { found });
    }
    let version = LittleEndian::read_u32(&bytes[8..]);
    if version != VERSION {
        return Err(TableStop::WrongVersion { found: version });
    }
    let extra = LittleEndian::read_u32(&bytes[12..]);
    match checked(u64::from(least), u64::from(most), u64::from(extra)) {
        Ok(_) => Ok(extra),
        Err(cause) => Err(TableStop::Bad {
            row: 0,
            column: 0,
            cause,
        }),
    }
}

/// Appends a header. An error is want of memory; then a part of it may stand behind what was there.
pub fn push_header(out: &mut Bytes, number: u32, extra: u32) -> Result<(), AllocError>
    ensures ok { OnOk result (out.new ≡ out.old ++ header_bytes number extra) }

    ensures kept { OnErr result (HasMore out.old out.new) }
{
    out.append(&MARK.to_le_bytes())?;
    out.append(&number.to_le_bytes())?;
    out.append(&VERSION.to_le_bytes())?;
    out.append(&extra.to_le_bytes())?;
    Ok(())
}
