//! The pairs of a record, in one pass that judges and decodes them.
//! The rules: docs/STREAMS.md, "Records".
ghost use Rattle.std.specs.Prelude.{◌≡◌, ◌+◌, ◌*◌, ◌<◌, ◌≤◌, ◌^◌, false, [], ℕ, length, drop, vec_capacity, IsTrue, IfOk, IfSome, IfNone};
ghost use Rattle.kt_stream.specs.Pairs.{misfit, order_of, sidx_judge, loss_judge, SoundPair, IsNext, HasNoNext, pair_in, signed, pairs_in, AreFirst};
ghost use Rattle.kt_stream.specs.declared.stop.RecordCause.TheVariants.{Id};
ghost use Rattle.kt_stream.specs.Read.{between, ReadsAs};

use crate::entry::{Pair, Pairs};
use crate::number::{outside, u32_of, u64_of};
use crate::read::{Misfit, Read};
use crate::stop::RecordCause;
use std::alloc::AllocError;

/// A pair as it stands in the bytes: its sidx as an unsigned number of 32 bits.
#[derive(Clone, Copy)]
pub struct RawPair {
    /// The four bytes of the sidx: 2^32 - 2 stands for -2.
    pub word: u32,
    /// In cents, from 1 to 10^16, and 0 beside sidx 0.
    pub loss: u64,
}

/// The length of a pair in bytes.
pub const PAIR: usize = 12;

/// The greatest loss beside a sidx, in cents.
const LOSS_LIMIT: u64 = 10_000_000_000_000_000;

/// What is wrong with an id at a byte.
pub fn id_fault(at: u64, x: u32) -> Option<Misfit>
    ensures { result ≡ between 1 2147483647 (misfit at Id) x }
{
    outside(1, 2_147_483_647, Misfit::new(at, RecordCause::Id), x as u64)
}

/// The place of a sidx among the whole numbers from -2 up, from 0.
#[inline]
fn order(word: u32) -> u32
    ensures { result ≡ order_of word }
{
    word.wrapping_add(2)
}

/// What is wrong with a sidx at a byte, where `least` is the place of the least that may come.
fn sidx_fault(samples: u32, least: u32, at: u64, word: u32) -> Option<Misfit>
    requires { samples ≤ 1000 }
    ensures { result ≡ sidx_judge samples least at word }
{
    if word != 0 {
        return outside(
            least as u64,
            samples as u64 + 2,
            Misfit::new(at, RecordCause::Sidx),
            order(word) as u64,
        );
    }
    if least == 0 {
        return Some(Misfit::new(at, RecordCause::Empty));
    }
    None
}

/// What is wrong with the loss at a byte beside a sidx.
fn loss_fault(word: u32, at: u64, loss: u64) -> Option<Misfit>
    ensures { result ≡ loss_judge word at loss }
{
    if word == 0 {
        return outside(0, 0, Misfit::new(at, RecordCause::End), loss);
    }
    outside(1, LOSS_LIMIT, Misfit::new(at, RecordCause::Loss), loss)
}

/// Whether this is a pair, and no end pair, with which nothing is wrong. The bounds are compared in place
/// because this is asked of each pair of a stream.
#[inline]
fn is_sound(samples: u32, least: u32, word: u32, loss: u64) -> bool
    requires { samples ≤ 1000 }
    ensures sound { IsTrue result → (at : ℕ) → SoundPair samples least word loss at }
    ensures unsound { result ≡ false → (at : ℕ) → SoundPair samples least word loss at → ⊥ }
{
    let place = order(word);
    word != 0 && least <= place && place <= samples + 2 && 1 <= loss && loss <= LOSS_LIMIT
}

/// The same where no sidx below `after` may come, and that is 1 at least: the end pair and the sidx below 0 are refused with those that
/// are no sample's.
#[inline]
fn is_sound_behind(samples: u32, after: u32, word: u32, loss: u64) -> bool
    requires samples { samples ≤ 1000 }
    requires after { 1 ≤ after }
    ensures sound { IsTrue result → (at : ℕ) → SoundPair samples (after + 2) word loss at }
    ensures unsound { result ≡ false → (at : ℕ) → SoundPair samples (after + 2) word loss at → ⊥ }
{
    after <= word && word <= samples && 1 <= loss && loss <= LOSS_LIMIT
}

/// The pair at the front of the bytes, field by field.
#[tactic(auto, unfolding(crate::specs::Pairs::pair_in))]
fn judged_pair(samples: u32, least: u32, bytes: &[u8], at: u64) -> Read<RawPair, Misfit>
    requires samples { samples ≤ 1000 }
    requires at { at < 2 ^ 63 }
    ensures { result ≡ pair_in samples least bytes.now at }
{
    if bytes.len() < 4 {
        return Read::Short;
    }
    let word = u32_of(bytes);
    if let Some(misfit) = sidx_fault(samples, least, at, word) {
        return Read::Wrong(misfit);
    }
    if bytes.len() < PAIR {
        return Read::Short;
    }
    let loss = u64_of(&bytes[4..]);
    if let Some(misfit) = loss_fault(word, at + 4, loss) {
        return Read::Wrong(misfit);
    }
    Read::Got(RawPair { word, loss })
}

/// A pair by its sidx as a signed number.
#[inline]
fn signed_pair(pair: RawPair) -> Pair
    ensures { result ≡ signed pair }
{
    Pair {
        sidx: pair.word.cast_signed(),
        loss: pair.loss,
    }
}

/// The pair at the front of the bytes, where it is sound and not the end pair.
#[inline]
fn next_pair(samples: u32, least: u32, bytes: &[u8]) -> Option<RawPair>
    requires { samples ≤ 1000 }
    ensures next { IfSome result (IsNext samples least bytes.now) }
    ensures none { IfNone result (HasNoNext samples least bytes.now) }
{
    if bytes.len() < PAIR {
        return None;
    }
    let word = u32_of(bytes);
    let loss = u64_of(&bytes[4..]);
    if is_sound(samples, least, word, loss) {
        Some(RawPair { word, loss })
    } else {
        None
    }
}

/// The same of bytes that are long enough, where no sidx below `after` may come, and that is 1 at least.
#[inline]
fn pair_behind(samples: u32, after: u32, bytes: &[u8]) -> Option<RawPair>
    requires samples { samples ≤ 1000 }
    requires after { 1 ≤ after }
    requires long { 12 ≤ length bytes.now }
    ensures next { IfSome result (IsNext samples (after + 2) bytes.now) }
    ensures none { IfNone result (HasNoNext samples (after + 2) bytes.now) }
{
    let word = u32_of(bytes);
    let loss = u64_of(&bytes[4..]);
    if is_sound_behind(samples, after, word, loss) {
        Some(RawPair { word, loss })
    } else {
        None
    }
}

/// The sound pairs at the front of some bytes.
#[derive(Drop)]
struct FirstPairs {
    /// The pairs.
    pairs: Vec<Pair>,
    /// The place of the least sidx that may come behind them.
    least: u32,
    /// How many bytes they have.
    used: usize,
}

/// The place of sidx 1.
const FIRST_SAMPLE: u32 = 3;

/// The sound pairs at the front of the bytes, up to the first pair that is none, or the end pair, where these were found and no sidx
/// below 1 may come behind them. Almost all pairs of a stream are read by this loop, so it asks no more of each than its
/// place leaves open.
#[inline(always)]
fn pairs_behind(samples: u32, bytes: &[u8], found: FirstPairs) -> FirstPairs
    requires samples { samples ≤ 1000 }
    requires least { 3 ≤ found.least }
    requires first { AreFirst samples bytes.now found.pairs.items found.least found.used }
    requires room { samples + 3 ≤ vec_capacity found.pairs }
    ensures first { AreFirst samples bytes.now result.pairs.items result.least result.used }
    ensures last { HasNoNext samples result.least (drop result.used bytes.now) }
{
    let end = bytes.len().saturating_sub(PAIR - 1);
    let mut pairs = found.pairs;
    let mut after = found.least - 2;
    let mut used = found.used;
    while used < end {
        let Some(pair) = pair_behind(samples, after, &bytes[used..]) else {
            break;
        };
        pairs.push_reserved(signed_pair(pair));
        after = pair.word + 1;
        used += PAIR;
    }
    FirstPairs {
        pairs,
        least: after + 2,
        used,
    }
}

/// The sound pairs at the front of the bytes, up to the first pair that is none, or the end pair. They are put into
/// a vector that is empty and has room for them. It stands apart, so that its loops have the registers to themselves.
#[inline(never)]
fn first_pairs(samples: u32, bytes: &[u8], empty: Vec<Pair>) -> FirstPairs
    requires samples { samples ≤ 1000 }
    requires empty { empty.items ≡ [] }
    requires room { samples + 3 ≤ vec_capacity empty }
    ensures first { AreFirst samples bytes.now result.pairs.items result.least result.used }
    ensures last { HasNoNext samples result.least (drop result.used bytes.now) }
{
    let mut pairs = empty;
    let mut least = 0;
    let mut used = 0;
    while least < FIRST_SAMPLE {
        let Some(pair) = next_pair(samples, least, &bytes[used..]) else {
            return FirstPairs { pairs, least, used };
        };
        pairs.push_reserved(signed_pair(pair));
        least = order(pair.word) + 1;
        used += PAIR;
    }
    pairs_behind(samples, bytes, FirstPairs { pairs, least, used })
}

/// Reads the pairs up to the end pair at the front of the bytes, which stand at a byte of the stream, into a list: how
/// many bytes they have with the end pair. Where they are short or wrong, nothing is said of the list. An error is want
/// of memory.
pub fn read_pairs(
    list: &mut Pairs,
    samples: u32,
    bytes: &[u8],
    at: u64,
) -> Result<Read<usize, Misfit>, AllocError>
    requires samples { samples ≤ 1000 }
    requires at { at + length bytes.now < 2 ^ 63 }
    ensures { IfOk result (λ read. ReadsAs (λ pairs. 12 * length pairs + 12) (pairs_in (samples + 4) samples 0 bytes.now at) list.new read) }
{
    let mut empty = list.take_vec();
    empty.clear();
    empty.reserve(samples as usize + 3)?;
    let FirstPairs { pairs, least, used } = first_pairs(samples, bytes, empty);
    *list = Pairs::from_vec(pairs);
    match judged_pair(samples, least, &bytes[used..], at + used as u64) {
        Read::Short => Ok(Read::Short),
        Read::Wrong(misfit) => Ok(Read::Wrong(misfit)),
        Read::Got(_end) => Ok(Read::Got(used + PAIR)),
    }
}
