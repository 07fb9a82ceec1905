//! The records of a stream of damage distributions.
//! The rules: docs/STREAMS.md, "Distributions".
ghost use Rattle.std.specs.Prelude.{◌≡◌, ◌+◌, ◌<◌, ◌≤◌, ◌^◌, [], length, min, IfOk};
ghost use Rattle.kt_stream.specs.Bins.{cdf_front_in, cdf_form, cdf_shape, IsCdf};
ghost use Rattle.kt_stream.specs.Reader.{Represents, IsRested};
ghost use Rattle.kt_stream.specs.Stream.{IsLawful};

use crate::bins::read_bins;
use crate::entry::Cdf;
use crate::kind::{Shape, StreamKind};
use crate::number::{outside, u32_of};
use crate::pairs::id_fault;
use crate::read::{Misfit, Read};
use crate::reader::RecordReader;
use crate::stop::RecordCause;
use crate::unit::Entry;
use std::alloc::{AllocError, Global};

/// The length of the fields in front of the bins in bytes.
const FRONT: usize = 16;

/// The most bins that any distribution may have.
const MOST_BINS: u32 = 1000;

/// The fields in front of the bins of a distribution.
#[derive(Clone, Copy)]
pub struct CdfFront {
    /// The event's id, from 1 to 2,147,483,647.
    pub event: u32,
    /// The area peril's id, from 1 to 2,147,483,647.
    pub areaperil: u32,
    /// The vulnerability's id, from 1 to 2,147,483,647.
    pub vulnerability: u32,
    /// The number of bins, from 1 to 1,000.
    pub bins: u32,
}

/// The fields at the front of the bytes, which stand at a byte of the stream.
fn front_at(most: u32, bytes: &[u8], at: u64) -> Read<CdfFront, Misfit>
    requires { at < 2 ^ 63 }
    ensures { result ≡ cdf_front_in most bytes.now at }
{
    if bytes.len() < 4 {
        return Read::Short;
    }
    let event = u32_of(bytes);
    if let Some(misfit) = id_fault(at, event) {
        return Read::Wrong(misfit);
    }
    if bytes.len() < 8 {
        return Read::Short;
    }
    let areaperil = u32_of(&bytes[4..]);
    if let Some(misfit) = id_fault(at + 4, areaperil) {
        return Read::Wrong(misfit);
    }
    if bytes.len() < 12 {
        return Read::Short;
    }
    let vulnerability = u32_of(&bytes[8..]);
    if let Some(misfit) = id_fault(at + 8, vulnerability) {
        return Read::Wrong(misfit);
    }
    if bytes.len() < FRONT {
        return Read::Short;
    }
    let bins = u32_of(&bytes[12..]);
    let wrong = Misfit::new(at + 12, RecordCause::Bins);
    if let Some(misfit) = outside(1, most_bins(most), wrong, bins as u64) {
        return Read::Wrong(misfit);
    }
    Read::Got(CdfFront {
        event,
        areaperil,
        vulnerability,
        bins,
    })
}

/// The most bins that a distribution may have, where the reader was told of so many.
fn most_bins(most: u32) -> u64
    ensures { result ≡ min most 1000 }
{
    most.min(MOST_BINS) as u64
}

impl Entry for Cdf {
    ghost form = { cdf_form };

    ghost IsGood = { λ shape samples cdf. IsCdf shape.bins cdf };

    #[tactic(auto, unfolding(crate::specs::Bins::cdf_in))]
    fn read_into(
        &mut self,
        shape: Shape,
        _samples: u32,
        bytes: &[u8],
        at: u64,
    ) -> Result<Read<usize, Misfit>, AllocError> {
        let front = match front_at(shape.bins, bytes, at) {
            Read::Short => return Ok(Read::Short),
            Read::Wrong(misfit) => return Ok(Read::Wrong(misfit)),
            Read::Got(front) => front,
        };
        self.event = front.event;
        self.areaperil = front.areaperil;
        self.vulnerability = front.vulnerability;
        match read_bins(
            &mut self.bins,
            front.bins,
            &bytes[FRONT..],
            at + FRONT as u64,
        )? {
            Read::Short => Ok(Read::Short),
            Read::Wrong(misfit) => Ok(Read::Wrong(misfit)),
            Read::Got(size) => Ok(Read::Got(FRONT + size)),
        }
    }

    fn laws() {}
}

/// A reader of a stream of damage distributions.
pub type CdfReader = RecordReader<Cdf>;

impl RecordReader<Cdf> {
    /// A reader of a stream of distributions of at most so many bins, and of at most 1,000, that was given no
    /// bytes. Asks for no memory.
    pub fn new(alloc: Global, bins: u32) -> Self
        ensures value { Represents Cdf cdf_form [] [] result }
        ensures shape { result.shape ≡ cdf_shape bins }
        ensures head { result.head ≡ None }
        ensures rests { IsRested Cdf cdf_form result }
    {
        RecordReader::of_shape(
            alloc,
            Shape {
                kind: StreamKind::Cdf,
                bins,
            },
        )
    }
}
