//! Writing what is pending.
//! The rule: docs/STREAMS.md, "Tools over streams".
ghost use Rattle.std.specs.Prelude.{◌≡◌, ℕ, List, [], Option, OnOk};
ghost use Rattle.kt_loop.specs.Counts.{CountsWrite};
ghost use Rattle.kt_loop.specs.Given.{Given, Spills};

use kt_ends::{ToolStop, write_stop};
use kt_money::Bytes;
use kt_out::{Sink, write_all};

/// Writes all that is pending.
pub(crate) fn spill<K: Sink>(sink: &mut K, out: &mut Bytes) -> Result<(), ToolStop>
    ensures written { (before : Option (List ℕ)) (text : List ℕ) → Given before (K.state sink.old).taken out.old text → Spills before (K.state sink.new).taken out.new text result }
    ensures emptied { OnOk result (out.new ≡ []) }
    ensures counted { CountsWrite (K.state sink.old).faults (K.state sink.new).faults result }
{
    if let Err(fault) = write_all(sink, out.as_slice()) {
        return Err(write_stop(fault));
    }
    out.truncate(0);
    Ok(())
}
