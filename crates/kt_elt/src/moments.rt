//! The means and standard deviations of the losses of one summary record.
//! The rules: docs/OUTPUTS.md, "Event loss table".
ghost use Rattle.std.specs.Prelude.{◌≡◌};
ghost use Rattle.kt_elt.specs.Losses.{FitsSamples, analytical_moments, sample_moments};

use crate::sidx::Role;
use kt_money::{MeanSd, mean_sd};
use kt_stream::Pair;

/// The two means and deviations of a summary record, one for each type of row, in cents.
#[derive(Clone, Copy)]
pub(crate) struct LossMoments {
    /// Type 1: those that were computed from the distributions.
    pub(crate) analytical: MeanSd,
    /// Type 2: those of the samples.
    pub(crate) sample: MeanSd,
}

/// The means and deviations of a record with these pairs.
pub(crate) fn loss_moments(samples: u32, pairs: &[Pair]) -> LossMoments
    requires { FitsSamples samples pairs.now }
    ensures analytical { result.analytical ≡ analytical_moments pairs.now }
    ensures sample { result.sample ≡ sample_moments samples pairs.now }
{
    let mut mean = 0;
    let mut sd = 0;
    let mut sum = 0u64;
    let mut squares = 0u128;
    for pair in pairs {
        // Most pairs are samples, so that is asked first.
        if Role::is_sampled(pair) {
            sum += pair.loss;
            squares += u128::from(pair.loss) * u128::from(pair.loss);
        } else {
            match Role::of_pair(pair) {
                Role::Mean => mean = pair.loss,
                Role::Deviation => sd = pair.loss,
                Role::Sample | Role::Other => {}
            }
        }
    }
    LossMoments {
        analytical: MeanSd { mean, sd },
        sample: mean_sd(u64::from(samples), u128::from(sum), squares),
    }
}
