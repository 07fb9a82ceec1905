//! A source of bytes, as standard input is one.
//! The rule: docs/ARCHITECTURE.md, "The outside".
ghost use Rattle.std.specs.Prelude.{◌≡◌, ◌<◌, ◌≤◌, length, IfOk};
ghost use Rattle.kt_out.specs.Reading.{SourceState, Reads};

use crate::Failed;

/// A source of bytes, which are read once and in order.
pub trait Source {
    /// The bytes that reads will give from here on, where they are known, and how many reads have failed.
    ghost state: { Self → SourceState };

    /// How many reads have failed, up to the last value of a `u64`. The count never falls.
    fn faults(&self) -> u64
        ensures { result ≡ (state self.now).faults };

    /// Takes the next bytes into the front of the buffer, and answers how many; 0 is the end.
    /// `Failed` moves no byte. The count of faults rises exactly where `Failed` comes.
    fn read(&mut self, buf: &mut [u8]) -> Result<usize, Failed>
        requires { 0 < length buf.old }

        ensures moved { Reads (state self.old) (state self.new) buf.old buf.new result }
        ensures within { IfOk result (λ n. n ≤ length buf.old) }

        ensures counted { (state self.old).faults ≤ (state self.new).faults };
}
