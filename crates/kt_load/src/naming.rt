//! The files of the tables.
//! The rules: docs/TABLES.md, "Files".
ghost use Rattle.std.specs.Prelude.{◌≡◌, IfOk};
ghost use Rattle.kt_load.specs.FileNames.{file_name_of, stage_digit};

use kt_rec::{Name, TableId};
use std::alloc::{AllocError, Global};

/// How many bytes the folder of the base takes in the name of a file, as in `input/items.bin`.
const FOLDER: usize = 6;

/// The digit of a stage, from 0 to 9.
fn digit(stage: u32) -> &'static [u8]
    ensures { result.now ≡ stage_digit stage }
{
    let stage = stage as usize;
    b"0123456789".get(stage..stage + 1).unwrap_or(&[])
}

/// The file of a table: that of the base, or, in the folder of its stage, the one of the same name. An error is want of
/// memory.
pub fn file_name(alloc: Global, id: TableId) -> Result<Name, AllocError>
    ensures value { IfOk result (λ name. name ≡ file_name_of id) }
{
    let mut name = Name::new(alloc);
    let base = id.table.file_name();
    if id.stage == 0 {
        name.append(base)?;
        return Ok(name);
    }
    name.append(b"RI_")?;
    name.append(digit(id.stage))?;
    name.append(b"/")?;
    name.append(base.get(FOLDER..).unwrap_or(&[]))?;
    Ok(name)
}
