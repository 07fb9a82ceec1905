//! Output files by name, as a folder of results holds them.
//! The rule: docs/ARCHITECTURE.md, "The outside".
ghost use Rattle.std.specs.Prelude.{◌≡◌, ◌<◌, ◌≤◌, length, IfOk};
ghost use Rattle.kt_out.specs.OutputFiles.{OutputsState, Appends, CountsOutput, Creates};

use crate::Fault;

/// Output files by name, which are made empty and then written at their end.
pub trait Outputs {
    /// What each name stands for, where it is known, and how many calls have failed.
    ghost state: { Self → OutputsState };

    /// How many calls have failed, up to the last value of a `u64`. The count never falls.
    fn faults(&self) -> u64
        ensures { result ≡ (state self.now).faults };

    /// Makes the name stand for no bytes, whatever it stood for. Behind a refused call it stands for what it
    /// stood for, or for nothing. The count of faults rises exactly where `Failed` comes.
    fn create(&mut self, name: &[u8]) -> Result<(), Fault>
        ensures ok { Creates (state self.old).written (state self.new).written name.now result }

        ensures counts { CountsOutput (state self.old).faults (state self.new).faults result }
        ensures counted { (state self.old).faults ≤ (state self.new).faults };

    /// Adds the first bytes of the piece, at least one, to what the name stands for, and answers
    /// how many. A name that is not held counts as standing for no bytes. A refused call adds none.
    /// The count of faults rises exactly where `Failed` comes.
    fn append(&mut self, name: &[u8], piece: &[u8]) -> Result<usize, Fault>
        requires { 0 < length piece.now }

        ensures moved { Appends (state self.old).written (state self.new).written name.now piece.now result }
        ensures within { IfOk result (λ n. (0 < n) × (n ≤ length piece.now)) }

        ensures counts { CountsOutput (state self.old).faults (state self.new).faults result }
        ensures counted { (state self.old).faults ≤ (state self.new).faults };
}
