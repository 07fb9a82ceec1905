//! Appending a whole text to an output file, in as many appends as it takes.
//! The rule: docs/ARCHITECTURE.md, "The outside".
ghost use Rattle.std.specs.Prelude.{◌≡◌, ◌≤◌, [], IsOk};
ghost use Rattle.kt_out.specs.Appending.{AppendsAll};
ghost use Rattle.kt_out.specs.OutputFiles.{CountsOutput};

use crate::{Fault, Outputs};

/// Adds all bytes to what the name stands for; a name that is not held counts as standing for no bytes. After a refusal
/// some front of them is added, maybe nothing. The count of faults rises exactly where `Failed` comes: an append that
/// failed is not made again. No bytes are no append at all.
pub fn append_all<O: Outputs>(outputs: &mut O, name: &[u8], bytes: &[u8]) -> Result<(), Fault>
    ensures moved { AppendsAll (O.state outputs.old).written (O.state outputs.new).written name.now bytes.now result }

    ensures counts { CountsOutput (O.state outputs.old).faults (O.state outputs.new).faults result }
    ensures counted { (O.state outputs.old).faults ≤ (O.state outputs.new).faults }
    ensures unchanged { bytes.now ≡ [] → IsOk result × (O.state outputs.new ≡ O.state outputs.old) }
{
    let mut done = 0;
    while done < bytes.len() {
        match outputs.append(name, &bytes[done..]) {
            Ok(more) => done += more,
            Err(fault) => return Err(fault),
        }
    }
    Ok(())
}
