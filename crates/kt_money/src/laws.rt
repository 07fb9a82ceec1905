//! Theorems about shares, as functions with an empty body.
//! The rule: docs/CALCULATION.md, "Share-out".
ghost use Rattle.std.specs.Prelude.{◌≡◌, ◌<◌, ◌≤◌, ℕ, List};
ghost use Rattle.std.specs.List.{sum};
ghost use Rattle.kt_money.specs.Sharing.{share_of, share_out};

/// The shares of a total add to it, where it is 0 or the weights are not all 0.
pub fn shares_add_to_the_total()
    ensures { (total : ℕ) (weights : List ℕ) → (0 < total → 0 < sum weights) → sum (share_out total weights) ≡ total }
{}

/// A weight of 0 has a share of 0.
pub fn no_weight_has_no_share()
    ensures { (total weights given : ℕ) → share_of total weights given 0 ≡ 0 }
{}

/// Where the total is not above the sum of the weights, no share is above its weight.
pub fn no_share_is_above_its_weight()
    ensures { (total weights given weight : ℕ) → total ≤ weights → share_of total weights given weight ≤ weight }
{}
