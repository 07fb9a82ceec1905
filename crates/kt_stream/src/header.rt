//! The header at the front of a stream.
//! The rules: docs/STREAMS.md, "Headers".
ghost use Rattle.std.specs.Prelude.{◌≡◌, ◌≤◌, length};
ghost use Rattle.kt_stream.specs.Header.{first_head, mark_judge, header_in, header_size};

use crate::kind::{Head, StreamKind};
use crate::number::{outside, u32_of};
use crate::read::{HeaderFault, Read};

/// The type 101 in the three bytes behind the first, as they stand in a little-endian number.
const PROFILE: u32 = 6_619_136;

/// The most samples that a stream may have.
const MOST_SAMPLES: u64 = 1000;

/// The length of the header of a stream of this kind in bytes.
pub fn header_length(kind: StreamKind) -> usize
    ensures { result ≡ header_size kind }
{
    match kind {
        StreamKind::Cdf => 4,
        StreamKind::Gul | StreamKind::Loss => 8,
        StreamKind::Summary => 12,
        StreamKind::Events => 0,
    }
}

/// What is wrong with the first four bytes of a stream of a kind.
fn mark_fault(kind: StreamKind, word: u32) -> Option<HeaderFault>
    ensures { result ≡ mark_judge kind word }
{
    if word / 256 != PROFILE {
        Some(HeaderFault::NotProfile)
    } else if word % 256 != kind.id() as u32 {
        Some(HeaderFault::WrongStream {
            found: (word % 256) as u8,
        })
    } else {
        None
    }
}

/// The header that a reader has before the first byte: only where the kind has none to be read.
pub fn header_before(kind: StreamKind) -> Option<Head>
    ensures { result ≡ first_head kind }
{
    match kind {
        StreamKind::Events => Some(Head { samples: 0, set: 0 }),
        _ => None,
    }
}

/// The header of a stream of this kind at the front of the bytes.
pub fn header_of(kind: StreamKind, bytes: &[u8]) -> Read<Head, HeaderFault>
    ensures { result ≡ header_in kind bytes.now }
{
    if let StreamKind::Events = kind {
        return Read::Got(Head { samples: 0, set: 0 });
    }
    if bytes.len() < 4 {
        return Read::Short;
    }
    if let Some(fault) = mark_fault(kind, u32_of(bytes)) {
        return Read::Wrong(fault);
    }
    if let StreamKind::Cdf = kind {
        return Read::Got(Head { samples: 0, set: 0 });
    }
    if bytes.len() < 8 {
        return Read::Short;
    }
    let samples = u32_of(&bytes[4..]);
    if let Some(fault) = outside(
        1,
        MOST_SAMPLES,
        HeaderFault::BadSamples { found: samples },
        samples as u64,
    ) {
        return Read::Wrong(fault);
    }
    if kind != StreamKind::Summary {
        return Read::Got(Head { samples, set: 0 });
    }
    if bytes.len() < 12 {
        return Read::Short;
    }
    let set = u32_of(&bytes[8..]);
    if let Some(fault) = outside(1, 9, HeaderFault::BadSet { found: set }, set as u64) {
        return Read::Wrong(fault);
    }
    Read::Got(Head { samples, set })
}
