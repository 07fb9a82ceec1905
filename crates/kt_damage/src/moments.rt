//! The mean and the deviation of the damage of a distribution, and of the loss of an insured value by it.
//! The rule: docs/CALCULATION.md, "Mean and deviation of an item".
ghost use Rattle.std.specs.Prelude.{◌≡◌, ◌≤◌, ◌-◌, ◌*◌, ◌/◌, ◌^◌, min};
ghost use Rattle.kt_money.specs.Rounding.{root};
ghost use Rattle.kt_damage.specs.DamageMoments.{AreMoments};
ghost use Rattle.kt_damage.specs.ItemMoments.{means_behind, damage_deviation};
ghost use Rattle.kt_damage.specs.Steps.{line_loss};
ghost use Rattle.kt_stream.specs.Bins.{AreBins};

use crate::steps::{line_loss, line_part, scaled};
use kt_money::isqrt;
use kt_stream::Bin;

/// 10^18, the whole in the units of a damage: the products of a probability and parts per million.
const WHOLE: u64 = 1_000_000_000_000_000_000;

/// The mean and the deviation of a damage, in units of 2^-127 of the insured value, rounded up.
#[derive(Clone, Copy)]
pub struct DamageMoments {
    /// The mean.
    pub mean: u128,
    /// The standard deviation.
    pub deviation: u128,
}

/// The mean and the deviation of a damage, in units of 10^-18 of the insured value.
#[derive(Clone, Copy)]
pub struct WholeMoments {
    /// The mean.
    pub mean: u64,
    /// The standard deviation, rounded down.
    pub deviation: u64,
}

/// The mean and the deviation of the damage of a distribution.
fn whole_moments(bins: &[Bin]) -> WholeMoments
    requires { AreBins 0 bins.now }
    ensures mean { result.mean ≡ means_behind 0 bins.now }
    ensures deviation { result.deviation ≡ damage_deviation bins.now }
    ensures most_mean { result.mean ≤ 1002001000000000000 }
    ensures most_deviation { result.deviation ≤ 1002001000000000000 }
{
    let mut before = 0;
    let mut means = 0;
    let mut squares = 0;
    for bin in bins {
        let part = (bin.prob_to - before) * u64::from(bin.mean);
        means += part;
        squares += u128::from(part) * u128::from(bin.mean);
        before = bin.prob_to;
    }
    WholeMoments {
        mean: means,
        deviation: deviation(means, squares),
    }
}

/// The deviation from the mean and the mean of the squares: the root of what the squares are more than the square of the mean.
fn deviation(means: u64, squares: u128) -> u64
    requires means { means ≤ 1002001000000000000 }
    requires squares { squares ≤ 1002001000000000000000000 }
    ensures value { result ≡ root (squares * 10 ^ 12 - means * means) }
    ensures most { result ≤ 1002001000000000000 }
{
    let square = u128::from(means) * u128::from(means);
    isqrt((squares * 1_000_000_000_000).saturating_sub(square))
}

/// The mean and the deviation of the damage of a distribution, ready for insured values.
pub fn damage_moments(bins: &[Bin]) -> DamageMoments
    requires { AreBins 0 bins.now }
    ensures value { AreMoments bins.now result }
{
    let moments = whole_moments(bins);
    DamageMoments {
        mean: scaled(moments.mean, WHOLE),
        deviation: scaled(moments.deviation, WHOLE),
    }
}

impl DamageMoments {
    /// The mean loss of an insured value.
    pub fn mean_loss(&self, tiv: u64) -> u64
        requires value { tiv ≤ 10 ^ 14 }
        ensures value { result ≡ min tiv (line_loss tiv self.now.mean) }
        ensures most { result ≤ tiv }
    {
        tiv.min(line_loss(tiv, self.mean))
    }

    /// The standard deviation of the loss of an insured value.
    pub fn loss_deviation(&self, tiv: u64) -> u64
        requires value { tiv ≤ 10 ^ 14 }
        ensures value { result ≡ tiv * self.now.deviation / 2 ^ 127 }
    {
        line_part(tiv, self.deviation)
    }
}
