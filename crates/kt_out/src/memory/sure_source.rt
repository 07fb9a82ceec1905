//! A source in memory that never fails.
//! The rule: docs/ARCHITECTURE.md, "The outside".
ghost use Rattle.std.specs.Prelude.{◌≡◌, ◌<◌, length, min, Ok};
ghost use Rattle.kt_out.specs.MemoryObjects.{sure_source_state};
ghost use Rattle.kt_out.specs.Reading.{Reads};

use crate::{Failed, Source};
use std::marker::Model;

/// A source in memory that never fails. Contracts see the bytes that it has left.
#[derive(Drop)]
pub struct SureSource {
    bytes: Vec<u8>,
    place: usize,
}

impl Model for SureSource {
    ghost use Rattle.std.specs.Prelude.{ℕ, ◌≤◌, List, drop, length};

    ghost Value = { List ℕ };

    ghost view = { λ s. drop s.place s.bytes.items };

    ghost invariant = { λ s. s.place ≤ length s.bytes.items };
}

impl SureSource {
    /// A source of these bytes.
    pub fn new(bytes: Vec<u8>) -> Self
        ensures { result ≡ bytes.items }
    {
        SureSource { bytes, place: 0 }
    }

    /// The bytes that are left to read.
    pub fn left(&self) -> &[u8]
        ensures { result.now ≡ self.now }
    {
        &self.bytes[self.place..]
    }
}

impl Source for SureSource {
    ghost state = { λ s. sure_source_state s };

    fn faults(&self) -> u64 {
        0
    }

    /// Fills the buffer, or gives all that is left.
    fn read(&mut self, buf: &mut [u8]) -> Result<usize, Failed>
        requires { 0 < length buf.old }

        ensures moved { Reads (sure_source_state self.old) (sure_source_state self.new) buf.old buf.new result }
        ensures exact { result ≡ Ok (min (length buf.old) (length self.old)) }
    {
        let rest = &self.bytes[self.place..];
        let n = buf.len().min(rest.len());
        buf[..n].copy_from_slice(&rest[..n]);
        self.place += n;
        Ok(n)
    }
}
