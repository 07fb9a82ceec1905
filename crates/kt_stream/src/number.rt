//! Little-endian numbers at the front of a slice, and the bounds of a number.
//! The rules: docs/STREAMS.md, "Records".
ghost use Rattle.std.specs.Prelude.{◌≡◌, ◌≤◌, length};
ghost use Rattle.kt_stream.specs.Read.{number_of, between};

use byteorder::{ByteOrder, LittleEndian};

/// The number in the first four bytes.
#[tactic(auto, unfolding(crate::specs::Read::number_of))]
#[inline]
pub fn u32_of(bytes: &[u8]) -> u32
    requires { 4 ≤ length bytes.now }
    ensures { result ≡ number_of 4 bytes.now }
{
    LittleEndian::read_u32(bytes)
}

/// The number in the first eight bytes.
#[tactic(auto, unfolding(crate::specs::Read::number_of))]
#[inline]
pub fn u64_of(bytes: &[u8]) -> u64
    requires { 8 ≤ length bytes.now }
    ensures { result ≡ number_of 8 bytes.now }
{
    LittleEndian::read_u64(bytes)
}

/// What is wrong with a value that is to lie between two bounds.
#[inline]
pub fn outside<W: Copy>(low: u64, high: u64, wrong: W, x: u64) -> Option<W>
    ensures { result ≡ between low high wrong x }
{
    if low <= x && x <= high {
        None
    } else {
        Some(wrong)
    }
}
