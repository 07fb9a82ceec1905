//! The records of a stream of ground-up losses, or of losses after terms.
//! The rules: docs/STREAMS.md, "Records".
ghost use Rattle.std.specs.Prelude.{◌≡◌, ◌+◌, ◌<◌, ◌≤◌, ◌^◌, [], length, IfOk};
ghost use Rattle.kt_stream.specs.Header.{first_head};
ghost use Rattle.kt_stream.specs.Losses.{loss_front_in, loss_form, loss_shape, IsLoss, IsLossKind};
ghost use Rattle.kt_stream.specs.Reader.{Represents, IsRested};
ghost use Rattle.kt_stream.specs.Stream.{IsLawful};

use crate::entry::LossRecord;
use crate::kind::{Shape, StreamKind};
use crate::number::u32_of;
use crate::pairs::{id_fault, read_pairs};
use crate::read::{Misfit, Read};
use crate::reader::RecordReader;
use crate::unit::Entry;
use std::alloc::{AllocError, Global};

/// The length of the fields in front of the pairs in bytes.
const FRONT: usize = 8;

/// The fields in front of the pairs of a record of losses.
#[derive(Clone, Copy)]
pub struct LossFront {
    /// The event's id, from 1 to 2,147,483,647.
    pub event: u32,
    /// The id of an item or of a layer's output, from 1 to 2,147,483,647.
    pub id: u32,
}

/// The fields at the front of the bytes, which stand at a byte of the stream.
fn front_at(bytes: &[u8], at: u64) -> Read<LossFront, Misfit>
    requires { at < 2 ^ 63 }
    ensures { result ≡ loss_front_in bytes.now at }
{
    if bytes.len() < 4 {
        return Read::Short;
    }
    let event = u32_of(bytes);
    if let Some(misfit) = id_fault(at, event) {
        return Read::Wrong(misfit);
    }
    if bytes.len() < FRONT {
        return Read::Short;
    }
    let id = u32_of(&bytes[4..]);
    if let Some(misfit) = id_fault(at + 4, id) {
        return Read::Wrong(misfit);
    }
    Read::Got(LossFront { event, id })
}

impl Entry for LossRecord {
    ghost form = { loss_form };

    ghost IsGood = { λ shape samples entry. IsLoss samples entry };

    #[tactic(auto, unfolding(crate::specs::Losses::loss_in))]
    fn read_into(
        &mut self,
        _shape: Shape,
        samples: u32,
        bytes: &[u8],
        at: u64,
    ) -> Result<Read<usize, Misfit>, AllocError> {
        let front = match front_at(bytes, at) {
            Read::Short => return Ok(Read::Short),
            Read::Wrong(misfit) => return Ok(Read::Wrong(misfit)),
            Read::Got(front) => front,
        };
        self.event = front.event;
        self.id = front.id;
        match read_pairs(&mut self.pairs, samples, &bytes[FRONT..], at + FRONT as u64)? {
            Read::Short => Ok(Read::Short),
            Read::Wrong(misfit) => Ok(Read::Wrong(misfit)),
            Read::Got(size) => Ok(Read::Got(FRONT + size)),
        }
    }

    fn laws() {}
}

/// A reader of a stream of losses, of kind `Gul` or `Loss`.
pub type LossReader = RecordReader<LossRecord>;

impl RecordReader<LossRecord> {
    /// A reader of a stream of this kind, `Gul` or `Loss`, that was given no bytes. Asks for no memory.
    pub fn new(alloc: Global, kind: StreamKind) -> Self
        requires { IsLossKind kind }
        ensures value { Represents LossRecord loss_form [] [] result }
        ensures shape { result.shape ≡ loss_shape kind }
        ensures head { result.head ≡ first_head kind }
        ensures rests { IsRested LossRecord loss_form result }
    {
        RecordReader::of_shape(alloc, Shape { kind, bins: 0 })
    }
}
