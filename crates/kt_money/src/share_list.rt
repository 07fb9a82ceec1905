//! The shares of a total by a list of weights.
//! The rule: docs/CALCULATION.md, "Share-out".
ghost use Rattle.std.specs.Prelude.{◌≡◌, ◌≤◌, ◌^◌, IfOk};
ghost use Rattle.std.specs.List.{sum};
ghost use Rattle.kt_money.specs.Sharing.{share_out};

use crate::sharing::ShareOut;
use std::alloc::{AllocError, Global};

/// Weights or amounts in cents, added, which add to at most 10^16.
fn total_of(weights: &[u64]) -> u64
    requires { sum weights.now ≤ 10 ^ 16 }
    ensures value { result ≡ sum weights.now }
{
    let mut all = 0;
    for weight in weights {
        all += *weight;
    }
    all
}

/// The shares of a total in cents by weights, one after the other: they add to the total. The weights add to at most 10^16, and the total
/// is not above them. An error is want of memory.
pub fn shares(alloc: Global, total: u64, weights: &[u64]) -> Result<Vec<u64>, AllocError>
    requires few { sum weights.now ≤ 10 ^ 16 }
    requires most { total ≤ sum weights.now }
    ensures value { IfOk result (λ shares. shares.items ≡ share_out total weights.now) }
{
    let mut sharing = ShareOut::new(total, u128::from(total_of(weights)));
    let mut shares = Vec::with_capacity(alloc, weights.len())?;
    for weight in weights {
        shares.push(sharing.next(*weight))?;
    }
    Ok(shares)
}
