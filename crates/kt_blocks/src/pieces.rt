//! A text in pieces, and its writing in blocks.
//! The rules: docs/COMMANDS.md, "tobin and tocsv".
ghost use Rattle.std.specs.Prelude.{◌++◌};
ghost use Rattle.kt_out.specs.Writing.{WritesAll};

use crate::spill::spill_block;
use kt_money::Bytes;
use kt_out::{Fault, Sink, write_all};

/// A text in pieces, each of which can be made without those before it.
pub(crate) trait Pieces {
    ghost use Rattle.std.specs.Prelude.{◌≡◌, ◌<◌, ◌++◌, ◌+◌, ℕ, List, [], OnOk, IfErr};
    ghost use Rattle.kt_out.specs.declared.fault.Fault.TheVariants.{OutOfMemory};

    // The pieces can be made.
    ghost is_ready: { Self → Type 0 };

    // How many pieces there are.
    ghost pieces: { Self → ℕ };

    // The text from a piece on.
    ghost rest: { Self → ℕ → List ℕ };

    /// How many pieces there are.
    fn count(&self) -> usize
        requires { is_ready self.now }
        ensures value { result ≡ pieces self.now }
        ensures end { rest self.now result ≡ [] };

    /// Appends a piece. The error is want of memory; then some of it may stand behind what was there.
    fn push(&self, index: usize, out: &mut Bytes) -> Result<(), Fault>
        requires ready { is_ready self.now }
        requires within { index < pieces self.now }
        ensures ok { OnOk result ((more : List ℕ) × (out.new ≡ out.old ++ more) × (rest self.now index ≡ more ++ rest self.now (index + 1))) }

        ensures memory { IfErr result (λ fault. fault ≡ OutOfMemory) };
}

/// Writes a text that begins with what is in `start` and goes on with the pieces, a block of 64 KiB at a time. After a
/// refusal the sink has taken some front of it, maybe nothing. Each text has its own copy of this code.
#[inline(always)]
pub(crate) fn write_pieces<P: Pieces, K: Sink>(
    pieces: &P,
    start: Bytes,
    sink: &mut K,
) -> Result<(), Fault>
    requires { P.is_ready pieces.now }
    ensures { WritesAll (K.state sink.old) (K.state sink.new) (start ++ P.rest pieces.now 0) result }
{
    let mut out = start;
    for index in 0..pieces.count() {
        match pieces.push(index, &mut out) {
            Ok(()) => {}
            Err(fault) => return Err(fault),
        }
        match spill_block(sink, &mut out) {
            Ok(()) => {}
            Err(fault) => return Err(fault),
        }
    }
    write_all(sink, out.as_slice())
}
