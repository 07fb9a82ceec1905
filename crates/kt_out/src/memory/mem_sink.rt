//! A sink in memory that fails in the calls that it is told to.
//! The rule: docs/ARCHITECTURE.md, "The outside".
ghost use Rattle.std.specs.Prelude.{◌≡◌, ◌↔◌, ◌<◌, ◌≤◌, [], length, min, IfOk, IsErrOf, IsTrue};
ghost use Rattle.kt_kept_files.specs.Calls.{fails_next, after_call, no_calls};
ghost use Rattle.kt_out.specs.MemoryObjects.{sink_state};
ghost use Rattle.kt_out.specs.Writing.{Writes};

use crate::{Fault, Sink};
use kt_kept_files::{Calls, moved_bytes};
use std::alloc::Global;
use std::marker::Model;

/// A sink in memory. It fails in listed calls, and one call moves a limited number of bytes.
#[derive(Drop)]
pub struct MemSink {
    bytes: Vec<u8>,
    calls: Calls,
}

impl Model for MemSink {
    ghost use Rattle.kt_out.specs.MemoryObjects.{MemorySink};

    ghost Value = { MemorySink };

    ghost view = { λ s. record { taken = s.bytes.items; calls = s.calls } };
}

impl MemSink {
    /// A sink that has taken nothing. The writes with the numbers in `fails`, counted from 1,
    /// answer `Failed`; any other takes at most `most` bytes, which is at least 1.
    pub fn new(alloc: Global, fails: Vec<u64>, most: u64) -> Self
        requires { 0 < most }

        ensures { result ≡ record { taken = []; calls = no_calls fails.items most } }
    {
        MemSink {
            bytes: Vec::new(alloc),
            calls: Calls::new(fails, most),
        }
    }

    /// The bytes that it has taken.
    pub fn taken(&self) -> &[u8]
        ensures { result.now ≡ self.now.taken }
    {
        &self.bytes
    }
}

impl Sink for MemSink {
    ghost state = { λ s. sink_state s };

    fn faults(&self) -> u64 {
        self.calls.failed()
    }

    fn write(&mut self, piece: &[u8]) -> Result<usize, Fault>
        requires { 0 < length piece.now }

        ensures moved { Writes (sink_state self.old) (sink_state self.new) piece.now result }
        ensures within { IfOk result (λ n. (0 < n) × (n ≤ length piece.now)) }
        ensures exact { IfOk result (λ n. n ≡ min (length piece.now) self.old.calls.most) }

        // It fails exactly in the calls that are listed.
        ensures refused { IsErrOf result Fault.Failed ↔ IsTrue (fails_next self.old.calls) }

        ensures counted { self.old.calls.failed ≤ self.new.calls.failed }
        ensures calls { self.new.calls ≡ after_call self.old.calls }
    {
        if self.calls.next_fails() {
            return Err(Fault::Failed);
        }
        let n = moved_bytes(piece.len(), self.calls.most());
        self.bytes.extend_from_slice(&piece[..n])?;
        Ok(n)
    }
}
