//! The places of sidx among the whole numbers of 32 bits.
//! The rules: docs/STREAMS.md, "Records".
ghost use Rattle.std.specs.Prelude.{◌≡◌, ◌<◌};
ghost use Rattle.kt_runs.specs.Sidx.{place_of, sidx_at};

use kt_stream::Pair;

/// The place of sidx 0.
const MIDDLE: u32 = 2_147_483_648;

/// The place of the sidx of a pair.
#[inline]
pub fn place_of(pair: &Pair) -> u32
    ensures value { result ≡ place_of pair.now.sidx }
    ensures back { sidx_at result ≡ pair.now.sidx }
{
    let sidx = pair.sidx;
    if sidx < 0 {
        MIDDLE - sidx.unsigned_abs()
    } else {
        MIDDLE + sidx.cast_unsigned()
    }
}

/// The sidx at a place.
#[inline]
pub fn sidx_at(place: u32) -> i32
    ensures value { result ≡ sidx_at place }
{
    place.wrapping_sub(MIDDLE).cast_signed()
}
