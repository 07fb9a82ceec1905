//! Totals shared out over two children, a lane at a time: the first has its part, and the second what is left.
//! The rule: docs/CALCULATION.md, "Share-out".
ghost use Rattle.std.specs.Prelude.{◌≡◌, ◌<◌, ◌≤◌, ◌^◌, length};
ghost use Rattle.kt_lanes.specs.Shares.{AreSplit, CanSplit};

use crate::likely::{AT_ONCE, NARROW, likely_shares};
use crate::quotient::part_to;
use crate::tested::{rest_of, wrong_bits};

/// Puts what the shares of the first child in totals in cents are likely to be in the place of what a lane has, four at once: the last
/// four last, some of them again. There are four at least.
fn guess_split(totals: &[u64], first: &[u64], second: &[u64], parts: &mut [u64])
    requires enough { 4 ≤ length totals.now }
    requires can { CanSplit totals.now first.now second.now }
    requires wide { length parts.old ≡ length totals.now }
    ensures wide { length parts.new ≡ length parts.old }
{
    let last = totals.len() - AT_ONCE;
    let mut at = 0;
    while at < last {
        likely_shares(totals, first, second, at).copy_to_slice(&mut parts[at..]);
        at += AT_ONCE;
    }
    likely_shares(totals, first, second, last).copy_to_slice(&mut parts[last..]);
}

/// Puts what is left of totals in cents without what a lane has in the place of what another has. Below 2^32 only where these are the
/// shares of two children.
fn test_split(
    totals: &[u64],
    first: &[u64],
    second: &[u64],
    parts: &[u64],
    rests: &mut [u64],
) -> u64
    requires can { CanSplit totals.now first.now second.now }
    requires parts_wide { length parts.now ≡ length totals.now }
    requires rests_wide { length rests.old ≡ length totals.now }
    ensures rests_wide { length rests.new ≡ length rests.old }
    ensures value { result < 2 ^ 32 → AreSplit totals.now first.now second.now parts.now rests.new }
{
    let mut wrong = 0;
    for k in 0..totals.len() {
        wrong |= wrong_bits(totals[k], first[k] + second[k], first[k], parts[k]);
        rests[k] = rest_of(totals[k], parts[k]);
    }
    wrong
}

/// Puts the shares of two children in totals in cents in the place of what lanes have, one by one.
fn divide_split(totals: &[u64], first: &[u64], second: &[u64], parts: &mut [u64], rests: &mut [u64])
    requires can { CanSplit totals.now first.now second.now }
    requires parts_wide { length parts.old ≡ length totals.now }
    requires rests_wide { length rests.old ≡ length totals.now }
    ensures value { AreSplit totals.now first.now second.now parts.new rests.new }
{
    for k in 0..totals.len() {
        let part = part_to(totals[k], first[k] + second[k], first[k]);
        parts[k] = part;
        rests[k] = rest_of(totals[k], part);
    }
}

/// Puts the shares of two children in totals in cents in the place of what lanes have.
pub(crate) fn split_totals(
    totals: &[u64],
    first: &[u64],
    second: &[u64],
    parts: &mut [u64],
    rests: &mut [u64],
)
    requires can { CanSplit totals.now first.now second.now }
    requires parts_wide { length parts.old ≡ length totals.now }
    requires rests_wide { length rests.old ≡ length totals.now }
    ensures value { AreSplit totals.now first.now second.now parts.new rests.new }
{
    if totals.len() < AT_ONCE {
        divide_split(totals, first, second, parts, rests);
        return;
    }
    guess_split(totals, first, second, parts);
    if test_split(totals, first, second, parts, rests) >= NARROW {
        divide_split(totals, first, second, parts, rests);
    }
}
