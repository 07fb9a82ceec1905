//! The test of what the part of a total is likely to be. Nothing branches, so that LLVM tests several at once.
//! The rule: docs/CALCULATION.md, "Share-out".
ghost use Rattle.std.specs.Prelude.{◌≡◌, ◌≤◌, ◌<◌, ◌-◌, ◌*◌, ◌^◌};
ghost use Rattle.kt_money.specs.Sharing.{share_to};
ghost use Rattle.kt_lanes.specs.Shares.{weight_or_one};

use crate::likely::NARROW;

/// The product of two numbers of 32 bits; of others, some number.
#[inline]
fn narrow_product(a: u64, b: u64) -> u64
    ensures value { a < 2 ^ 32 → b < 2 ^ 32 → result ≡ a * b }
{
    (a % NARROW).wrapping_mul(b % NARROW)
}

/// A number above 0 as it is, and 1 for 0.
#[inline]
pub(crate) fn at_least_one(n: u64) -> u64
    ensures value { result ≡ weight_or_one n }
{
    if n == 0 { 1 } else { n }
}

/// Of weights of 32 bits below 2^32 only where a number is the part of a total that falls to the first of them.
#[inline]
pub(crate) fn wrong_by(total: u64, weights: u64, upto: u64, part: u64) -> u64
    requires some { 0 < weights }
    requires most { total ≤ weights }
    requires within { upto ≤ weights }
    ensures value { weights < 2 ^ 32 → result < 2 ^ 32 → part ≡ share_to total weights upto }
{
    let product = narrow_product(total, upto);
    let whole = narrow_product(part, weights);
    // What is left of the product, and what it is below the greatest that may be left: where one of them would be negative, it wraps,
    // and is above all numbers of 32 bits.
    let left = product.wrapping_sub(whole);
    let below = (weights - 1).wrapping_sub(left);
    part | left | below
}

/// Below 2^32 only where a number is the part of a total that falls to the first weights, and the weights and the number have 32 bits
/// at most.
#[inline]
pub(crate) fn wrong_bits(total: u64, weights: u64, upto: u64, part: u64) -> u64
    requires most { total ≤ weights }
    requires within { upto ≤ weights }
    ensures value { result < 2 ^ 32 → part ≡ share_to total weights upto }
{
    weights | wrong_by(total, at_least_one(weights), upto, part)
}

/// What is left of a total without a part; where the part is above it, some number.
#[inline]
pub(crate) fn rest_of(total: u64, part: u64) -> u64
    ensures value { part ≤ total → result ≡ total - part }
{
    total.wrapping_sub(part)
}
