//! A sink in memory that never fails.
//! The rule: docs/ARCHITECTURE.md, "The outside".
ghost use Rattle.std.specs.Prelude.{◌≡◌, ◌<◌, [], length, IfOk, IfErr};
ghost use Rattle.kt_out.specs.MemoryObjects.{sure_sink_state};
ghost use Rattle.kt_out.specs.Writing.{Writes};

use crate::{Fault, Sink};
use std::alloc::Global;
use std::marker::Model;

/// A sink in memory that never fails. Contracts see the bytes that it has taken.
#[derive(Drop)]
pub struct SureSink {
    bytes: Vec<u8>,
}

impl Model for SureSink {
    ghost use Rattle.std.specs.Prelude.{ℕ, List};

    ghost Value = { List ℕ };

    ghost view = { λ s. s.bytes.items };
}

impl SureSink {
    /// A sink that has taken nothing.
    pub fn new(alloc: Global) -> Self
        ensures { result ≡ [] }
    {
        SureSink {
            bytes: Vec::new(alloc),
        }
    }

    /// The bytes that it has taken.
    pub fn taken(&self) -> &[u8]
        ensures { result.now ≡ self.now }
    {
        &self.bytes
    }
}

impl Sink for SureSink {
    ghost state = { λ s. sure_sink_state s };

    fn faults(&self) -> u64 {
        0
    }

    /// Takes the whole piece; its only error is want of memory.
    fn write(&mut self, piece: &[u8]) -> Result<usize, Fault>
        requires { 0 < length piece.now }

        ensures moved { Writes (sure_sink_state self.old) (sure_sink_state self.new) piece.now result }
        ensures exact { IfOk result (λ n. n ≡ length piece.now) }

        // It never fails.
        ensures memory { IfErr result (λ fault. fault ≡ Fault.OutOfMemory) }
    {
        self.bytes.extend_from_slice(piece)?;
        Ok(piece.len())
    }
}
