//! A sink of bytes, as standard output is one.
//! The rule: docs/ARCHITECTURE.md, "The outside".
ghost use Rattle.std.specs.Prelude.{◌≡◌, ◌<◌, ◌≤◌, length, IfOk};
ghost use Rattle.kt_out.specs.Writing.{SinkState, Writes};

use crate::Fault;

/// A sink of bytes, which it keeps in the order in which they came.
pub trait Sink {
    /// The bytes that writes have given so far, where they are known, and how many writes have failed.
    ghost state: { Self → SinkState };

    /// How many writes have failed, up to the last value of a `u64`. The count never falls.
    fn faults(&self) -> u64
        ensures { result ≡ (state self.now).faults };

    /// Takes the first bytes of the piece, at least one, and answers how many. A refused write
    /// takes none. The count of faults rises exactly where `Failed` comes.
    fn write(&mut self, piece: &[u8]) -> Result<usize, Fault>
        requires { 0 < length piece.now }

        ensures moved { Writes (state self.old) (state self.new) piece.now result }
        ensures within { IfOk result (λ n. (0 < n) × (n ≤ length piece.now)) }

        ensures counted { (state self.old).faults ≤ (state self.new).faults };
}
