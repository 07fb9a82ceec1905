//! Reading a named input file, block by block.
//! The rules: docs/STREAMS.md, "Tools over streams".
ghost use Rattle.std.specs.Prelude.{◌+◌, ◌<◌, ◌≤◌, length, IfOk};
ghost use Rattle.kt_out.specs.InputFiles.{AfterRead};
ghost use Rattle.kt_out.specs.Reading.{GivesKnown};
ghost use Rattle.kt_loop.specs.InputFile.{IsSized, file_bytes, left_from};

use kt_out::{Fault, Inputs};

/// Reads the next bytes of a file into the front of the block, from a place below its size on and none past the size; one
/// at the least. An error is that the read failed, or want of memory of the input files; nothing is said of the block then.
pub fn read_piece<I: Inputs>(
    inputs: &mut I,
    name: &[u8],
    size: u64,
    at: u64,
    block: &mut [u8],
) -> Result<usize, Fault>
    requires room { 0 < length block.old }
    requires within { at < size }
    requires sized { IsSized (I.state inputs.old).held name.now size }

    ensures moved { IfOk result (λ n. GivesKnown (left_from (file_bytes (I.state inputs.old).held name.now) at) (left_from (file_bytes (I.state inputs.old).held name.now) (at + n)) block.old block.new n) }
    ensures within { IfOk result (λ n. (0 < n) × (n ≤ length block.old) × (at + n ≤ size)) }
    ensures counts { AfterRead (I.state inputs.old) (I.state inputs.new) result }
{
    let room = block.len().min((size - at) as usize);
    inputs.read_at(name, at, &mut block[..room])
}
