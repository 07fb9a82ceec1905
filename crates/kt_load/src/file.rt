//! Reads bytes of a file, the first of it or those from a place on.
//! The rules: docs/REFUSALS.md, "Order".
ghost use Rattle.std.specs.Prelude.{◌≡◌, ◌+◌, ◌<◌, ◌≤◌, ◌^◌, IfOk, MatchResult, OnOk, length};
ghost use Rattle.kt_load.specs.Ends.{HasFront, HasPart, IsFront, IsPart, IsReadStop};
ghost use Rattle.kt_load.specs.Reading.{file_limit};

use crate::stop::LoadStop;
use kt_out::{Fault, Inputs};
use std::alloc::Global;

/// Fills the room with the bytes of a file from a place on, which has so many. The errors are a fault of the inputs and
/// want of memory.
fn fill<I: Inputs>(inputs: &mut I, name: &[u8], from: u64, room: &mut [u8]) -> Result<(), LoadStop>
    requires limit { length room.old ≤ file_limit }
    requires place { from + length room.old < 2 ^ 64 }
    requires part { HasPart (I.state inputs.old).held name.now from (length room.old) }
    ensures value { OnOk result (IsPart (I.state inputs.old).held name.now from (length room.old) room.new) }

    ensures inputs { MatchResult result (λ _. I.state inputs.new ≡ I.state inputs.old) (IsReadStop (I.state inputs.old) (I.state inputs.new)) }
{
    let mut at = 0;
    while at < room.len() {
        match inputs.read_at(name, from + at as u64, &mut room[at..]) {
            Ok(read) => at += read,
            Err(Fault::Failed) => return Err(LoadStop::ReadFault),
            Err(Fault::OutOfMemory) => return Err(LoadStop::OutOfMemory),
        }
    }
    Ok(())
}

/// Reads bytes of a file from a place on, which has so many. The errors are a fault of the inputs and want of memory.
pub(crate) fn read_part<I: Inputs>(
    alloc: Global,
    inputs: &mut I,
    name: &[u8],
    from: u64,
    wanted: usize,
) -> Result<Vec<u8>, LoadStop>
    requires limit { wanted ≤ file_limit }
    requires place { from + wanted < 2 ^ 64 }
    requires part { HasPart (I.state inputs.old).held name.now from wanted }
    ensures value { IfOk result (λ bytes. IsPart (I.state inputs.old).held name.now from wanted bytes.items) }

    ensures inputs { MatchResult result (λ _. I.state inputs.new ≡ I.state inputs.old) (IsReadStop (I.state inputs.old) (I.state inputs.new)) }
{
    let mut bytes = Vec::new(alloc);
    bytes.resize(wanted, 0)?;
    fill(inputs, name, from, bytes.as_mut_slice())?;
    Ok(bytes)
}

/// Reads the first bytes of a file, which has so many. The errors are a fault of the inputs and want of memory.
pub(crate) fn read_front<I: Inputs>(
    alloc: Global,
    inputs: &mut I,
    name: &[u8],
    wanted: usize,
) -> Result<Vec<u8>, LoadStop>
    requires limit { wanted ≤ file_limit }
    requires front { HasFront (I.state inputs.old).held name.now wanted }
    ensures value { IfOk result (λ bytes. IsFront (I.state inputs.old).held name.now wanted bytes.items) }

    ensures inputs { MatchResult result (λ _. I.state inputs.new ≡ I.state inputs.old) (IsReadStop (I.state inputs.old) (I.state inputs.new)) }
{
    Ok(read_part(alloc, inputs, name, 0, wanted)?)
}
