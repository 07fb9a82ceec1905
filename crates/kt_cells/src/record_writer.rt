//! Rows as records of little-endian numbers.
//! The rule: docs/TABLES.md, "Files of tables".
ghost use Rattle.std.specs.Prelude.{◌≡◌, ◌++◌, ◌⊎◌, OnOk, OnErr, length};
ghost use Rattle.byteorder.specs.Endian.{little_bytes};
ghost use Rattle.kt_cells.specs.Records.{record_bytes};
ghost use Rattle.kt_cells.specs.Taking.{HasMore};

use kt_money::Bytes;
use kt_rec::Kind;
use std::alloc::AllocError;

// Appends a number in four or eight bytes.
#[inline(always)]
fn push_number(out: &mut Bytes, width: usize, value: u64) -> Result<(), AllocError>
    requires { (width ≡ 4) ⊎ (width ≡ 8) }
    ensures ok { OnOk result (out.new ≡ out.old ++ little_bytes width value) }
    ensures unchanged { OnErr result (out.new ≡ out.old) }
{
    if width == 4 {
        out.append(&value.to_le_bytes()[..4])
    } else {
        out.append(&value.to_le_bytes())
    }
}

/// Appends a row as a record. An error is want of memory; then a part of it may stand behind what was there. The code is put
/// where the kinds are known.
#[inline(always)]
pub fn push_record(out: &mut Bytes, kinds: &[Kind], values: &[u64]) -> Result<(), AllocError>
    requires { length values.now ≡ length kinds.now }
    ensures ok { OnOk result (out.new ≡ out.old ++ record_bytes kinds.now values.now) }

    ensures kept { OnErr result (HasMore out.old out.new) }
{
    for (column, kind) in kinds.iter().enumerate() {
        push_number(out, kind.width(), values[column])?;
    }
    Ok(())
}
