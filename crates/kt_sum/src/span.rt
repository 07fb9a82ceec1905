//! The sidx that the records of a run have: from which place to which.
//! The rule: docs/CALCULATION.md, "Summaries".
ghost use Rattle.std.specs.Prelude.{◌≡◌, ◌+◌, ◌≤◌, All};
ghost use Rattle.kt_runs.specs.Sidx.{place_of};
ghost use Rattle.kt_sum.specs.Adding.{IsNoFarther, IsSpan};

use kt_runs::place_of;
use kt_stream::{LossRecord, Pair};

/// The place of sidx -2, the least of a stream.
const FIRST: u32 = 2_147_483_646;

/// How many places stand from it on.
const BEHIND: u32 = 2_147_483_648;

/// The places of the sums of a run: the least, and how many.
#[derive(Clone, Copy)]
pub(crate) struct Span {
    /// The least place.
    pub(crate) least: u64,
    /// How many places there are.
    pub(crate) width: usize,
}

/// The least place that pairs have, and no more than so far.
fn lowest(so_far: u32, pairs: &[Pair]) -> u32
    ensures kept { result ≤ so_far }
    ensures all { All (λ pair. result ≤ place_of pair.sidx) pairs.now }
{
    let mut least = so_far;
    for pair in pairs {
        least = least.min(place_of(pair));
    }
    least
}

/// The least place that records have.
fn lowest_of(records: &[LossRecord]) -> u32
    ensures all { All (λ entry. All (λ pair. result ≤ place_of pair.sidx) entry.pairs) records.now }
{
    let mut least = u32::MAX;
    for entry in records {
        least = lowest(least, entry.pairs.as_slice());
    }
    least
}

/// How far behind a place the sidx of pairs stand at the most, and no less than so far; those before it count as farther than all
/// others.
#[inline]
fn farthest(so_far: u32, from: u32, pairs: &[Pair]) -> u32
    ensures kept { so_far ≤ result }
    ensures all { All (λ pair. IsNoFarther from result (place_of pair.sidx)) pairs.now }
{
    let mut most = so_far;
    for pair in pairs {
        most = most.max(place_of(pair).wrapping_sub(from));
    }
    most
}

/// How far behind a place the sidx of records stand at the most.
#[inline]
fn farthest_of(from: u32, records: &[LossRecord]) -> u32
    ensures all { All (λ entry. All (λ pair. IsNoFarther from result (place_of pair.sidx)) entry.pairs) records.now }
{
    let mut most = 0;
    for entry in records {
        most = farthest(most, from, entry.pairs.as_slice());
    }
    most
}

/// The places from the least sidx of records to the greatest.
fn exact_span(records: &[LossRecord]) -> Span
    ensures value { IsSpan records.now result.least result.width }
{
    let least = u64::from(lowest_of(records));
    let upto = u64::from(farthest_of(0, records)) + 1;
    Span {
        least,
        width: upto.saturating_sub(least) as usize,
    }
}

/// The places of the sums of a run of records: those from sidx -2 on, where no record has a lower sidx.
pub(crate) fn span_of(records: &[LossRecord]) -> Span
    ensures value { IsSpan records.now result.least result.width }
{
    let most = farthest_of(FIRST, records);
    if most >= BEHIND {
        return exact_span(records);
    }
    Span {
        least: u64::from(FIRST),
        width: most as usize + 1,
    }
}
