//! Appending what is pending of a text.
//! The rules: docs/REFUSALS.md, "Statuses".
ghost use Rattle.std.specs.Prelude.{◌≡◌, ◌≤◌, ℕ, List, [], Option, OnOk};
ghost use Rattle.kt_out.specs.NamedFiles.{FileMap};
ghost use Rattle.kt_out.specs.OutputFiles.{CountsOutput};
ghost use Rattle.kt_outputs.specs.Midway.{IsMidway, Spills};

use kt_money::Bytes;
use kt_out::{Fault, Outputs, append_all};

/// The bytes that are gathered before they are appended.
const BLOCK: usize = 65_536;

/// Appends what is pending.
pub(crate) fn spill<O: Outputs>(outputs: &mut O, name: &[u8], out: &mut Bytes) -> Result<(), Fault>
    ensures moved { (before : Option FileMap) (whole rest : List ℕ) → IsMidway before (O.state outputs.old).written name.now whole out.old rest → Spills before (O.state outputs.new).written name.now whole out.new rest result }
    ensures none_pending { OnOk result (out.new ≡ []) }

    ensures counts { CountsOutput (O.state outputs.old).faults (O.state outputs.new).faults result }
    ensures counted { (O.state outputs.old).faults ≤ (O.state outputs.new).faults }
    ensures untouched { out.old ≡ [] → O.state outputs.new ≡ O.state outputs.old }
{
    match append_all(outputs, name, out.as_slice()) {
        Ok(()) => {
            out.truncate(0);
            Ok(())
        }
        Err(fault) => Err(fault),
    }
}

/// Appends what is pending once it is a block.
pub(crate) fn spill_block<O: Outputs>(
    outputs: &mut O,
    name: &[u8],
    out: &mut Bytes,
) -> Result<(), Fault>
    ensures moved { (before : Option FileMap) (whole rest : List ℕ) → IsMidway before (O.state outputs.old).written name.now whole out.old rest → Spills before (O.state outputs.new).written name.now whole out.new rest result }

    ensures counts { CountsOutput (O.state outputs.old).faults (O.state outputs.new).faults result }
    ensures counted { (O.state outputs.old).faults ≤ (O.state outputs.new).faults }
    ensures untouched { out.old ≡ [] → O.state outputs.new ≡ O.state outputs.old }
{
    if out.len() < BLOCK {
        Ok(())
    } else {
        spill(outputs, name, out)
    }
}
