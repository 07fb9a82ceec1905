//! What steps leave of many losses, each by itself.
//! The rules: docs/FINANCIAL_MODULE.md, "Steps".
ghost use Rattle.std.specs.Prelude.{◌≡◌, ◌≤◌, ◌<◌, ◌^◌, ℕ, true, length, slice_index};
ghost use Rattle.kt_rules.specs.Amounts.{deduct, franchise, limited, reverse_franchise, shared};
ghost use Rattle.kt_rules.specs.Each.{IsEach, are_alone, is_alone, step_loss, steps_loss};
ghost use Rattle.kt_rules.specs.LossAlone.{loss_after, untouched};
ghost use Rattle.kt_rules.specs.Profiles.{IsProfile};
ghost use Rattle.kt_rules.specs.Steps.{can_step, can_take};

use crate::loss_alone::loss_after;
use crate::profile::Profile;
use crate::steps::{Step, bounded_part_of, part_of};
use crate::table::steps_of;
use kt_money::ppm_of;

/// The share that leaves the whole loss, in parts per million.
const WHOLE: u32 = 1_000_000;

/// Of a loss what a franchise leaves.
#[inline]
fn from_franchise(amount: u64, loss: u64) -> u64
    ensures value { result ≡ (franchise amount (untouched loss)).loss }
{
    if loss < amount { 0 } else { loss }
}

/// Of a loss what a reverse franchise leaves.
#[inline]
fn from_reverse_franchise(amount: u64, loss: u64) -> u64
    ensures value { result ≡ (reverse_franchise amount (untouched loss)).loss }
{
    if loss > amount { 0 } else { loss }
}

/// Of each loss what a deductible or an attachment leaves. Where it is 0, nothing is touched.
#[tactic(auto, using(crate::proofs::EachLemmas::nothing_deducted))]
fn deduct_each(amount: u64, losses: &mut [u64])
    ensures value { IsEach (λ loss. (deduct amount (untouched loss)).loss) losses.old losses.new }
{
    if amount == 0 {
        return;
    }
    for k in 0..losses.len() {
        losses[k] = losses[k].saturating_sub(amount);
    }
}

/// Of each loss what a limit leaves.
fn limit_each(amount: u64, losses: &mut [u64])
    ensures value { IsEach (λ loss. (limited amount (untouched loss)).loss) losses.old losses.new }
{
    for k in 0..losses.len() {
        losses[k] = losses[k].min(amount);
    }
}

/// Of each loss what a share leaves. Where it is the whole, nothing is touched.
#[tactic(auto, using(crate::proofs::EachLemmas::whole_shared))]
fn share_each(share: u32, losses: &mut [u64])
    requires share { share ≤ 1000000 }
    requires few { (k : ℕ) → k < length losses.old → slice_index losses.old k ≤ 10 ^ 16 }
    ensures value { IsEach (λ loss. (shared share (untouched loss)).loss) losses.old losses.new }
{
    if share == WHOLE {
        return;
    }
    for k in 0..losses.len() {
        losses[k] = ppm_of(losses[k], share);
    }
}

/// Of each loss what a franchise leaves.
fn franchise_each(amount: u64, losses: &mut [u64])
    ensures value { IsEach (λ loss. (franchise amount (untouched loss)).loss) losses.old losses.new }
{
    for k in 0..losses.len() {
        losses[k] = from_franchise(amount, losses[k]);
    }
}

/// Of each loss what a reverse franchise leaves.
fn reverse_franchise_each(amount: u64, losses: &mut [u64])
    ensures value { IsEach (λ loss. (reverse_franchise amount (untouched loss)).loss) losses.old losses.new }
{
    for k in 0..losses.len() {
        losses[k] = from_reverse_franchise(amount, losses[k]);
    }
}

/// Whether what a step leaves of a loss depends on that loss alone.
fn is_alone(step: Step) -> bool
    ensures value { result ≡ is_alone step }
{
    match step {
        Step::Minimum
        | Step::Maximum
        | Step::MinimumOrMaximum
        | Step::DeductibleOfLoss
        | Step::DeductibleOfLossWithin
        | Step::LimitOfLoss => false,
        _ => true,
    }
}

/// What a step leaves of each loss.
fn step_each(step: Step, terms: &Profile, tiv: u64, losses: &mut [u64])
    requires terms { IsProfile terms.now }
    requires can { can_step step terms.now.rule ≡ true }
    requires alone { is_alone step ≡ true }
    requires value { tiv ≤ 10 ^ 14 }
    requires few { (k : ℕ) → k < length losses.old → slice_index losses.old k ≤ 10 ^ 16 }
    ensures value { IsEach (step_loss step terms.now tiv) losses.old losses.new }
{
    match step {
        Step::Deductible => deduct_each(terms.ded1, losses),
        Step::DeductibleOfTiv => deduct_each(part_of(terms, tiv), losses),
        Step::DeductibleOfLimit => deduct_each(part_of(terms, terms.lim1), losses),
        Step::DeductibleOfTivWithin => deduct_each(bounded_part_of(terms, tiv), losses),
        Step::Franchise => franchise_each(terms.ded1, losses),
        Step::ReverseFranchise => reverse_franchise_each(terms.ded1, losses),
        Step::Attachment => deduct_each(terms.att1, losses),
        Step::Limit => limit_each(terms.lim1, losses),
        Step::FirstShare => share_each(terms.share1, losses),
        Step::SecondShare => share_each(terms.share2, losses),
        Step::ThirdShare => share_each(terms.share3, losses),
        _ => {}
    }
}

/// What four steps leave of each loss, one after the other.
fn four_steps_each(steps: [Step; 4], terms: &Profile, tiv: u64, losses: &mut [u64])
    requires terms { IsProfile terms.now }
    requires can { can_take steps terms.now.rule ≡ true }
    requires alone { are_alone steps ≡ true }
    requires value { tiv ≤ 10 ^ 14 }
    requires few { (k : ℕ) → k < length losses.old → slice_index losses.old k ≤ 10 ^ 16 }
    ensures value { IsEach (steps_loss steps terms.now tiv) losses.old losses.new }
{
    let [first, second, third, fourth] = steps;
    step_each(first, terms, tiv, losses);
    step_each(second, terms, tiv, losses);
    step_each(third, terms, tiv, losses);
    step_each(fourth, terms, tiv, losses);
}

/// Whether what each of four steps leaves of a loss depends on that loss alone.
fn are_alone(steps: [Step; 4]) -> bool
    ensures value { result ≡ are_alone steps }
{
    let [first, second, third, fourth] = steps;
    is_alone(first) && is_alone(second) && is_alone(third) && is_alone(fourth)
}

/// What a profile leaves of each loss, one by one.
fn one_by_one(profile: &Profile, tiv: u64, losses: &mut [u64])
    requires profile { IsProfile profile.now }
    requires value { tiv ≤ 10 ^ 14 }
    requires few { (k : ℕ) → k < length losses.old → slice_index losses.old k ≤ 10 ^ 16 }
    ensures value { IsEach (loss_after profile.now tiv) losses.old losses.new }
{
    for k in 0..losses.len() {
        losses[k] = loss_after(profile, tiv, losses[k]);
    }
}

/// What a profile leaves of each of some losses of at most 10^16 cents of which nothing was taken, beside an insured value of at
/// most 10^14 cents: `loss_after` of each. The profile is one that `Profile::of` gives.
pub fn apply_each(profile: &Profile, tiv: u64, losses: &mut [u64])
    requires profile { IsProfile profile.now }
    requires value { tiv ≤ 10 ^ 14 }
    requires few { (k : ℕ) → k < length losses.old → slice_index losses.old k ≤ 10 ^ 16 }
    ensures value { IsEach (loss_after profile.now tiv) losses.old losses.new }
{
    let steps = steps_of(profile.rule);
    if are_alone(steps) {
        four_steps_each(steps, profile, tiv, losses);
    } else {
        one_by_one(profile, tiv, losses);
    }
}
