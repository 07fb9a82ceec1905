//! Sharing a total out over weights, to the last cent.
//! The rule: docs/CALCULATION.md, "Share-out".
ghost use Rattle.std.specs.Prelude.{◌≡◌, ◌⊎◌, ◌+◌, ◌<◌, ◌≤◌, ◌^◌};
ghost use Rattle.kt_money.specs.Sharing.{share_of, share_to};

use crate::quotient::divide;
use std::marker::Model;

/// A total in cents that is shared out over weights, one after the other. The shares of all weights add to the total,
/// and a weight of 0 has a share of 0.
#[derive(Drop)]
pub struct ShareOut {
    total: u64,
    weights: u128,
    given: u128,
    paid: u64,
}

impl Model for ShareOut {
    ghost use Rattle.std.specs.Prelude.{◌≡◌, ◌≤◌, ◌^◌};
    ghost use Rattle.kt_money.specs.Sharing.{Sharing, IsSharing};

    ghost Value = { Sharing };

    ghost view = { λ s. record { total = s.total; weights = s.weights; given = s.given } };

    ghost invariant = { λ s. IsSharing s.total s.weights s.given s.paid };
}

/// The part of a total that falls to the first weights, rounded down; 0 where there are no weights at all.
fn part_to(total: u64, weights: u128, upto: u128) -> u64
    requires most { total ≤ 10 ^ 17 }
    requires bound { weights ≤ 10 ^ 20 }
    requires within { upto ≤ weights }
    ensures value { result ≡ share_to total weights upto }
    ensures most { result ≤ total }
{
    if weights == 0 {
        return 0;
    }
    divide(u128::from(total) * upto, weights) as u64
}

impl ShareOut {
    /// A total, at most 10^17 cents, for weights that add to `weights`, at most 10^20. Weights of 0 in all are for a
    /// total of 0.
    pub fn new(total: u64, weights: u128) -> ShareOut
        requires some { (0 < weights) ⊎ (total ≡ 0) }
        requires most { total ≤ 10 ^ 17 }
        requires bound { weights ≤ 10 ^ 20 }
        ensures value { result ≡ record { total = total; weights = weights; given = 0 } }
    {
        ShareOut {
            total,
            weights,
            given: 0,
            paid: 0,
        }
    }

    /// The share of the next weight. The weights so far, with this one, are at most those in all.
    pub fn next(&mut self, weight: u64) -> u64
        requires { self.old.given + weight ≤ self.old.weights }
        ensures value { result ≡ share_of self.old.total self.old.weights self.old.given weight }
        ensures given { self.new ≡ record self.old { given = self.old.given + weight } }
    {
        let given = self.given + u128::from(weight);
        let paid = part_to(self.total, self.weights, given);
        let share = paid - self.paid;
        self.given = given;
        self.paid = paid;
        share
    }
}
