//! Writing what is pending of a text.
//! The rule: docs/COMMANDS.md, "tobin and tocsv".
ghost use Rattle.std.specs.Prelude.{ℕ, List};
ghost use Rattle.kt_out.specs.Writing.{SinkState};
ghost use Rattle.kt_blocks.specs.Progress.{IsMidway, Spills};

use kt_money::Bytes;
use kt_out::{Fault, Sink, write_all};

/// The bytes that are gathered before they are written.
const BLOCK: usize = 65_536;

/// Writes what is pending.
fn spill<K: Sink>(sink: &mut K, out: &mut Bytes) -> Result<(), Fault>
    ensures { (before : SinkState) (whole : List ℕ) (rest : List ℕ) → IsMidway before (K.state sink.old) whole out.old rest → Spills before (K.state sink.new) whole out.new rest result }
{
    match write_all(sink, out.as_slice()) {
        Ok(()) => {
            out.truncate(0);
            Ok(())
        }
        Err(fault) => Err(fault),
    }
}

/// Writes what is pending once it is a block.
pub(crate) fn spill_block<K: Sink>(sink: &mut K, out: &mut Bytes) -> Result<(), Fault>
    ensures { (before : SinkState) (whole : List ℕ) (rest : List ℕ) → IsMidway before (K.state sink.old) whole out.old rest → Spills before (K.state sink.new) whole out.new rest result }
{
    if out.len() < BLOCK {
        Ok(())
    } else {
        spill(sink, out)
    }
}
