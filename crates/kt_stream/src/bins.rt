//! The bins of a damage distribution, in one pass that judges and decodes them.
//! The rules: docs/STREAMS.md, "Distributions".
ghost use Rattle.std.specs.Prelude.{◌≡◌, ◌+◌, ◌*◌, ◌<◌, ◌≤◌, ◌^◌, length, IfOk};
ghost use Rattle.kt_stream.specs.Bins.{lowest, bin_in, bins_in};
ghost use Rattle.kt_stream.specs.Read.{ReadsAs};

use crate::entry::{Bin, Bins};
use crate::number::{outside, u32_of, u64_of};
use crate::read::{Misfit, Read};
use crate::stop::RecordCause;
use std::alloc::AllocError;

/// The length of a bin in bytes.
pub const BIN: usize = 12;

/// The least probability that a bin may have.
fn lowest_of(left: u32, before: u64) -> u64
    requires { before < 2 ^ 63 }
    ensures { result ≡ lowest left before }
{
    if left == 0 { before + 1 } else { before }
}

/// The bin at the front of the bytes, which stand at a byte of the stream, with so many bins behind it.
#[tactic(auto, unfolding(crate::specs::Bins::bin_in))]
fn bin_at(left: u32, before: u64, bytes: &[u8], at: u64) -> Read<Bin, Misfit>
    requires before { before < 2 ^ 63 }
    requires at { at < 2 ^ 63 }
    ensures { result ≡ bin_in left before bytes.now at }
{
    if bytes.len() < 8 {
        return Read::Short;
    }
    let prob_to = u64_of(bytes);
    let low = lowest_of(left, before);
    let wrong = Misfit::new(at, RecordCause::Prob);
    if let Some(misfit) = outside(low, 1_002_001_000_000, wrong, prob_to) {
        return Read::Wrong(misfit);
    }
    if bytes.len() < BIN {
        return Read::Short;
    }
    let mean = u32_of(&bytes[8..]);
    let wrong = Misfit::new(at + 8, RecordCause::Mean);
    if let Some(misfit) = outside(0, 1_000_000, wrong, mean as u64) {
        return Read::Wrong(misfit);
    }
    Read::Got(Bin { prob_to, mean })
}

/// Reads so many bins at the front of the bytes, which stand at a byte of the stream, into a list: how many bytes they
/// have. Where they are short or wrong, nothing is said of the list. An error is want of memory.
pub fn read_bins(
    list: &mut Bins,
    count: u32,
    bytes: &[u8],
    at: u64,
) -> Result<Read<usize, Misfit>, AllocError>
    requires { at + length bytes.now < 2 ^ 63 }
    ensures { IfOk result (λ read. ReadsAs (λ bins. 12 * length bins) (bins_in count 0 bytes.now at) list.new read) }
{
    let mut bins = list.take_vec();
    bins.clear();
    bins.reserve(count as usize)?;
    let mut before = 0;
    let mut used = 0;
    for i in 0..count {
        match bin_at(count - 1 - i, before, &bytes[used..], at + used as u64) {
            Read::Short => return Ok(Read::Short),
            Read::Wrong(misfit) => return Ok(Read::Wrong(misfit)),
            Read::Got(bin) => {
                bins.push_reserved(bin);
                before = bin.prob_to;
                used += BIN;
            }
        }
    }
    *list = Bins::from_vec(bins);
    Ok(Read::Got(used))
}
