//! The bins of one distribution.
//! The rules: docs/CALCULATION.md, "Damage distribution".
ghost use Rattle.std.specs.Prelude.{◌≡◌, ℕ, ◌-◌, ◌<◌, ◌≤◌, length, slice_index, slice_index_or, OnOk};
ghost use Rattle.std.specs.List.{sum};
ghost use Rattle.kt_rec.specs.declared.hazard.DamageBin.{DamageBin};
ghost use Rattle.kt_model.specs.Distribution.{bins_behind};
ghost use Rattle.kt_model.specs.Scratch.{AreChances};

use kt_rec::DamageBin;
use kt_stream::{Bin, Bins};
use std::alloc::AllocError;

/// How many bins there are up to the last whose chance is above 0.
fn count_of(chances: &[u64]) -> usize
    ensures within { result ≤ length chances.now }
    ensures none_behind { (k : ℕ) → result ≤ k → slice_index chances.now k ≡ 0 }
    ensures last { 0 < result → 0 < slice_index chances.now (result - 1) }
{
    let mut count = chances.len();
    while count > 0 && chances[count - 1] == 0 {
        count -= 1;
    }
    count
}

/// Puts the bins of a distribution with these chances in place of others.
pub(crate) fn make_bins(
    chances: &[u64],
    dictionary: &[DamageBin],
    bins: &mut Bins,
) -> Result<(), AllocError>
    requires same { length chances.now ≡ length dictionary.now }
    requires fits { sum chances.now ≤ 1002001000000 }
    ensures value { (chance : ℕ → ℕ) → AreChances chance chances.now dictionary.now → OnOk result (bins.new ≡ bins_behind chance 0 dictionary.now) }
{
    let count = count_of(chances);
    bins.truncate(0);
    let mut before = 0;
    for place in 0..count {
        before += chances[place];
        bins.push(Bin {
            prob_to: before,
            mean: dictionary[place].interpolation,
        })?;
    }
    Ok(())
}
