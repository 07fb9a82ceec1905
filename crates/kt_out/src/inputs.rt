//! Input files by name, as the current folder holds them.
//! The rule: docs/ARCHITECTURE.md, "The outside".
ghost use Rattle.std.specs.Prelude.{◌≡◌, ◌<◌, ◌≤◌, length, IfOk};
ghost use Rattle.kt_out.specs.InputFiles.{InputsState, AfterRead, AfterSize, FindsSize, InFile, ReadsAt};

use crate::{Absent, Fault};

/// Input files by name, which are read in pieces from any place. No call changes what they hold.
pub trait Inputs {
    /// What each name stands for, where it is known, how many calls have failed, and how many have
    /// asked for a name that is not held.
    ghost state: { Self → InputsState };

    /// How many calls have failed, up to the last value of a `u64`. The count never falls.
    fn faults(&self) -> u64
        ensures { result ≡ (state self.now).faults };

    /// How many calls have asked for a name that is not held, up to the last value of a `u64`. The
    /// count never falls.
    fn misses(&self) -> u64
        ensures { result ≡ (state self.now).misses };

    /// The size of a file in bytes. `Missing` comes exactly where the name is not held, even in a
    /// call that is to fail. The count of misses rises exactly where `Missing` comes, and that of
    /// faults exactly where `Failed` comes.
    fn size(&mut self, name: &[u8]) -> Result<u64, Absent>
        ensures value { FindsSize (state self.old).held name.now result }

        ensures counts { AfterSize (state self.old) (state self.new) result }
        ensures counted { ((state self.old).faults ≤ (state self.new).faults) × ((state self.old).misses ≤ (state self.new).misses) };

    /// Reads bytes of a file from a place on into the front of the buffer, at least one, and
    /// answers how many. The place lies below the file's size. A file that has become shorter is
    /// `Failed`. The count of faults rises exactly where `Failed` comes, and that of misses never.
    fn read_at(&mut self, name: &[u8], at: u64, buf: &mut [u8]) -> Result<usize, Fault>
        requires room { 0 < length buf.old }
        requires in_file { InFile (state self.old).held name.now at }

        ensures moved { ReadsAt (state self.old).held name.now at buf.old buf.new result }
        ensures within { IfOk result (λ n. (0 < n) × (n ≤ length buf.old)) }

        ensures counts { AfterRead (state self.old) (state self.new) result }
        ensures counted { (state self.old).faults ≤ (state self.new).faults };
}
