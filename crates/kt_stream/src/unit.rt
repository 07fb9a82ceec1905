//! What a kind of record owes to be read and written by the one machinery.
//! The rules: docs/STREAMS.md, "Readers".
ghost use Rattle.std.specs.Prelude.{◌≡◌, ◌+◌, ◌<◌, ◌≤◌, ◌^◌, ℕ, length, IfOk};
ghost use Rattle.kt_stream.specs.declared.kind.Shape.{Shape};
ghost use Rattle.kt_stream.specs.Stream.{Form, IsLawful, ReadsInto};

use crate::entry::Reusable;
use crate::kind::Shape;
use crate::read::{Misfit, Read};
use std::alloc::AllocError;

/// A kind of record. It is read in one pass that judges and decodes.
pub trait Entry: Reusable {
    /// How a record is read and written.
    ghost form: { Form Self };

    /// Which records there are in a stream with so many samples.
    ghost IsGood: { Shape → ℕ → Self → Type 0 };

    /// Reads the record at the front of the bytes, which stand at a byte of the stream, into this value: how many
    /// bytes it has. Where it is short or wrong, nothing is said of the value.
    fn read_into(
        &mut self,
        shape: Shape,
        samples: u32,
        bytes: &[u8],
        at: u64,
    ) -> Result<Read<usize, Misfit>, AllocError>
        requires samples { samples ≤ 1000 }
        requires at { at + length bytes.now < 2 ^ 63 }
        ensures value { IfOk result (λ read. ReadsInto form (form.unit shape samples bytes.now at) self.new read) };

    /// The theorems about how records of this kind are read and written.
    fn laws()
        ensures value { IsLawful Self form IsGood };
}
