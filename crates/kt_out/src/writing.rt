//! Writing a whole piece, in as many writes as it takes.
//! The rule: docs/ARCHITECTURE.md, "The outside".
ghost use Rattle.std.specs.Prelude.{◌≡◌, ◌≤◌, [], IsOk};
ghost use Rattle.kt_out.specs.Writing.{WritesAll};

use crate::{Fault, Sink};

/// Writes the whole piece. After a refusal the sink has taken some front of it, maybe nothing.
/// The count of faults rises exactly where `Failed` comes: a write that failed is not made again.
/// An empty piece is no write at all.
pub fn write_all<K: Sink>(sink: &mut K, piece: &[u8]) -> Result<(), Fault>
    ensures moved { WritesAll (K.state sink.old) (K.state sink.new) piece.now result }

    ensures counted { (K.state sink.old).faults ≤ (K.state sink.new).faults }
    ensures unchanged { piece.now ≡ [] → IsOk result × (K.state sink.new ≡ K.state sink.old) }
{
    let mut done = 0;
    while done < piece.len() {
        done += sink.write(&piece[done..])?;
    }
    Ok(())
}
