//! What an object outside the program may answer in place of what was asked.
//! The rules: docs/ARCHITECTURE.md, "The outside"; docs/REFUSALS.md, "Statuses".
ghost use Rattle.std.specs.Prelude.{◌≡◌, ◌<◌, ℕ, IfErr, IfOk, Ok, Some};
ghost use Rattle.kt_out.specs.declared.fault.Fault.TheVariants.{Failed as fault_failed};

use std::alloc::{AllocError, AllocFailed};

/// A read failed. The object's count of faults rose in that call.
#[derive(Clone, Copy)]
pub struct Failed;

/// Why a write, or a read from a file, moved no byte.
#[derive(Clone, Copy)]
pub enum Fault {
    /// The object failed: its count of faults rose in that call.
    Failed,
    /// The object found no memory of its own. No count rose.
    OutOfMemory,
}

/// Why the size of a file was not found.
#[derive(Clone, Copy)]
pub enum Absent {
    /// The object failed: its count of faults rose in that call.
    Failed,
    /// There is no such file: the count of misses rose in that call, and no other count.
    Missing,
    /// The object found no memory of its own. No count rose.
    OutOfMemory,
}

impl From<AllocError> for Fault {
    ghost use Rattle.kt_out.specs.declared.fault.Fault.TheVariants.{OutOfMemory};

    ghost from_gives = { λ _ fault. fault ≡ OutOfMemory };

    fn from(_: AllocError) -> Self {
        Fault::OutOfMemory
    }
}

impl<T: Drop> From<AllocFailed<T>> for Fault {
    ghost use Rattle.kt_out.specs.declared.fault.Fault.TheVariants.{OutOfMemory};

    ghost from_gives = { λ _ fault. fault ≡ OutOfMemory };

    fn from(_: AllocFailed<T>) -> Self {
        Fault::OutOfMemory
    }
}

/// How many bytes came of a read within a file. None are there only where the file is not what it was: as a read that failed, that is a
/// fault.
pub fn some_read(came: Option<usize>) -> Result<usize, Fault>
    ensures some { IfOk result (λ n. (0 < n) × (came ≡ Some n)) }
    ensures whole { (n : ℕ) → 0 < n → came ≡ Some n → result ≡ Ok n }
    ensures failed { IfErr result (λ why. why ≡ fault_failed) }
{
    match came {
        None | Some(0) => Err(Fault::Failed),
        Some(n) => Ok(n),
    }
}
