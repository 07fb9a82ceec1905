//! A source in memory that fails in the calls that it is told to.
//! The rule: docs/ARCHITECTURE.md, "The outside".
ghost use Rattle.std.specs.Prelude.{◌≡◌, ◌↔◌, ◌<◌, ◌≤◌, length, min, IfOk, IsErr, IsTrue, OnErr};
ghost use Rattle.kt_kept_files.specs.Calls.{fails_next, after_call, no_calls};
ghost use Rattle.kt_out.specs.MemoryObjects.{source_state};
ghost use Rattle.kt_out.specs.Reading.{Reads};

use crate::{Failed, Source};
use kt_kept_files::{Calls, moved_bytes};
use std::marker::Model;

/// A source in memory. It fails in listed calls, and one call moves a limited number of bytes.
#[derive(Drop)]
pub struct MemSource {
    bytes: Vec<u8>,
    place: usize,
    calls: Calls,
}

impl Model for MemSource {
    ghost use Rattle.std.specs.Prelude.{◌≤◌, drop, length};
    ghost use Rattle.kt_out.specs.MemoryObjects.{MemorySource};

    ghost Value = { MemorySource };

    ghost view = { λ s. record { left = drop s.place s.bytes.items; calls = s.calls } };

    ghost invariant = { λ s. s.place ≤ length s.bytes.items };
}

impl MemSource {
    /// A source of these bytes. The reads with the numbers in `fails`, counted from 1, answer
    /// `Failed`; any other moves at most `most` bytes, which is at least 1.
    pub fn new(bytes: Vec<u8>, fails: Vec<u64>, most: u64) -> Self
        requires { 0 < most }

        ensures { result ≡ record { left = bytes.items; calls = no_calls fails.items most } }
    {
        MemSource {
            bytes,
            place: 0,
            calls: Calls::new(fails, most),
        }
    }

    /// The bytes that are left to read.
    pub fn left(&self) -> &[u8]
        ensures { result.now ≡ self.now.left }
    {
        &self.bytes[self.place..]
    }
}

impl Source for MemSource {
    ghost state = { λ s. source_state s };

    fn faults(&self) -> u64 {
        self.calls.failed()
    }

    fn read(&mut self, buf: &mut [u8]) -> Result<usize, Failed>
        requires { 0 < length buf.old }

        ensures moved { Reads (source_state self.old) (source_state self.new) buf.old buf.new result }
        ensures exact { IfOk result (λ n. n ≡ min (length buf.old) (min (length self.old.left) self.old.calls.most)) }

        // It fails exactly in the calls that are listed.
        ensures refused { IsErr result ↔ IsTrue (fails_next self.old.calls) }

        ensures unchanged { OnErr result (buf.new ≡ buf.old) }
        ensures counted { self.old.calls.failed ≤ self.new.calls.failed }
        ensures calls { self.new.calls ≡ after_call self.old.calls }
    {
        if self.calls.next_fails() {
            return Err(Failed);
        }
        let rest = &self.bytes[self.place..];
        let n = moved_bytes(buf.len().min(rest.len()), self.calls.most());
        buf[..n].copy_from_slice(&rest[..n]);
        self.place += n;
        Ok(n)
    }
}
