//! The loss of one sample.
//! The rule: docs/CALCULATION.md, "Sampled loss".
ghost use Rattle.std.specs.Prelude.{◌≡◌, ◌*◌, ◌≤◌, nat_lt, true, false, length};
ghost use Rattle.std.specs.List.Sorted.{IsPartitionPoint};
ghost use Rattle.kt_damage.specs.SampledLoss.{loss_in_bin, sampled_loss};
ghost use Rattle.kt_damage.specs.Sampled.{CanSample, IsInBin, end_before, damage_before};
ghost use Rattle.kt_stream.specs.Bins.{AreBins};

use kt_money::{div_half_up, ppm_of};
use kt_rec::DamageBin;
use kt_stream::Bin;

/// Parts per million in a whole.
const PPM: u64 = 1_000_000;

/// The loss of an insured value at a number that falls into a bin, which begins at the probability `before` and ends at
/// `upto`, and whose damage goes from `low` to `high`.
fn loss_in_bin(tiv: u64, low: u32, high: u32, before: u64, upto: u64, number: u64) -> u64
    requires { IsInBin tiv low high before upto number }
    ensures value { result ≡ loss_in_bin tiv low high before upto number }
{
    let width = upto - before;
    let damage = u64::from(low) * width + u64::from(high.saturating_sub(low)) * (number - before);
    div_half_up(
        u128::from(tiv) * u128::from(damage),
        u128::from(PPM * width),
    ) as u64
}

/// The place of the first bin that ends at the number or above; the number of bins where there is none.
fn place_of(bins: &[Bin], least: u64) -> usize
    requires { AreBins 0 bins.now }
    ensures within { result ≤ length bins.now }
    ensures value { IsPartitionPoint (λ b. nat_lt b.prob_to least ≡ true) (λ b. nat_lt b.prob_to least ≡ false) bins.now result }
{
    bins.partition_point(|bin| bin.prob_to < least)
}

/// The probability at which the bin before a place ends, 0 where there is none.
pub fn end_before(bins: &[Bin], place: usize) -> u64
    requires { place ≤ length bins.now }
    ensures value { (b : Bin) → result ≡ end_before 0 bins.now place b }
{
    if place == 0 {
        0
    } else {
        bins[place - 1].prob_to
    }
}

/// The damage at which the bin before a place ends, 0 where there is none.
pub fn damage_before(dictionary: &[DamageBin], place: usize) -> u32
    requires { place ≤ length dictionary.now }
    ensures value { (d : DamageBin) → result ≡ damage_before 0 dictionary.now place d }
{
    if place == 0 {
        0
    } else {
        dictionary[place - 1].bin_to
    }
}

/// The loss of an insured value by a distribution, at a random number in parts per million.
#[inline(never)]
pub fn sampled_loss(tiv: u64, dictionary: &[DamageBin], bins: &[Bin], random: u32) -> u64
    requires { CanSample tiv dictionary.now bins.now }
    ensures value { result ≡ sampled_loss tiv dictionary.now bins.now (random * 1000000) }
{
    let number = u64::from(random) * PPM;
    let place = place_of(bins, number.max(1));
    if place == bins.len() {
        return ppm_of(tiv, damage_before(dictionary, place));
    }
    let before = end_before(bins, place);
    let DamageBin {
        bin_from,
        bin_to,
        ..
    } = dictionary[place];
    loss_in_bin(tiv, bin_from, bin_to, before, bins[place].prob_to, number)
}
