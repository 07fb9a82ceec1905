//! The records of a summary stream.
//! The rules: docs/STREAMS.md, "Records".
ghost use Rattle.std.specs.Prelude.{◌≡◌, ◌+◌, ◌<◌, ◌≤◌, ◌^◌, [], None, length, IfOk};
ghost use Rattle.kt_stream.specs.Summary.{front_in, summary_form, IsSummary, summary_shape};
ghost use Rattle.kt_stream.specs.Stream.{IsLawful};
ghost use Rattle.kt_stream.specs.Reader.{Represents, IsRested};

use crate::entry::SummaryRecord;
use crate::kind::{Shape, StreamKind};
use crate::number::{outside, u32_of, u64_of};
use crate::pairs::{id_fault, read_pairs};
use crate::read::{Misfit, Read};
use crate::reader::RecordReader;
use crate::stop::RecordCause;
use crate::unit::Entry;
use std::alloc::{AllocError, Global};

/// The length of the fields in front of the pairs in bytes.
const FRONT: usize = 16;

/// The fields in front of the pairs of a summary record.
#[derive(Clone, Copy)]
pub struct SummaryFront {
    /// The event's id, from 1 to 2,147,483,647.
    pub event: u32,
    /// The summary id, from 1 to 2,147,483,647.
    pub summary: u32,
    /// In cents, at most 10^14.
    pub exposure: u64,
}

/// The fields at the front of the bytes, which stand at a byte of the stream.
fn front_at(bytes: &[u8], at: u64) -> Read<SummaryFront, Misfit>
    requires { at < 2 ^ 63 }
    ensures { result ≡ front_in bytes.now at }
{
    if bytes.len() < 4 {
        return Read::Short;
    }
    let event = u32_of(bytes);
    if let Some(misfit) = id_fault(at, event) {
        return Read::Wrong(misfit);
    }
    if bytes.len() < 8 {
        return Read::Short;
    }
    let summary = u32_of(&bytes[4..]);
    if let Some(misfit) = id_fault(at + 4, summary) {
        return Read::Wrong(misfit);
    }
    if bytes.len() < FRONT {
        return Read::Short;
    }
    let exposure = u64_of(&bytes[8..]);
    let wrong = Misfit::new(at + 8, RecordCause::Exposure);
    if let Some(misfit) = outside(0, 100_000_000_000_000, wrong, exposure) {
        return Read::Wrong(misfit);
    }
    Read::Got(SummaryFront {
        event,
        summary,
        exposure,
    })
}

impl Entry for SummaryRecord {
    ghost form = { summary_form };

    ghost IsGood = { λ shape samples entry. IsSummary samples entry };

    #[tactic(auto, unfolding(crate::specs::Summary::summary_in))]
    fn read_into(
        &mut self,
        _shape: Shape,
        samples: u32,
        bytes: &[u8],
        at: u64,
    ) -> Result<Read<usize, Misfit>, AllocError> {
        let front = match front_at(bytes, at) {
            Read::Short => return Ok(Read::Short),
            Read::Wrong(misfit) => return Ok(Read::Wrong(misfit)),
            Read::Got(front) => front,
        };
        self.event = front.event;
        self.summary = front.summary;
        self.exposure = front.exposure;
        match read_pairs(&mut self.pairs, samples, &bytes[FRONT..], at + FRONT as u64)? {
            Read::Short => Ok(Read::Short),
            Read::Wrong(misfit) => Ok(Read::Wrong(misfit)),
            Read::Got(size) => Ok(Read::Got(FRONT + size)),
        }
    }

    fn laws() {}
}

/// A reader of a summary stream.
pub type SummaryReader = RecordReader<SummaryRecord>;

impl RecordReader<SummaryRecord> {
    /// A reader of a summary stream that was given no bytes. Asks for no memory.
    pub fn new(alloc: Global) -> Self
        ensures value { Represents SummaryRecord summary_form [] [] result }
        ensures shape { result.shape ≡ summary_shape }
        ensures head { result.head ≡ None }
        ensures rests { IsRested SummaryRecord summary_form result }
    {
        RecordReader::of_shape(
            alloc,
            Shape {
                kind: StreamKind::Summary,
                bins: 0,
            },
        )
    }
}
