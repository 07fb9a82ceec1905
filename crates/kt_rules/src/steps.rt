//! The steps that the rules are made of.
//! The rules: docs/FINANCIAL_MODULE.md, "Steps".
ghost use Rattle.std.specs.Prelude.{◌≡◌, ◌≤◌, ◌^◌, true};
ghost use Rattle.kt_money.specs.Rounding.{ppm_part};
ghost use Rattle.kt_rules.specs.Amounts.{total};
ghost use Rattle.kt_rec.specs.Ranges.{is_deductible_part, is_limit_part};
ghost use Rattle.kt_rules.specs.Profiles.{IsProfile};
ghost use Rattle.kt_rules.specs.Rules.{part_of, bounded_part_of};
ghost use Rattle.kt_rules.specs.Steps.{after_step, can_step};

use crate::amounts::{
    at_least, at_most, attached, between, deduct, franchise, limited, reverse_franchise, shared,
    within_bounds,
};
use crate::carry::Carry;
use crate::profile::Profile;
use kt_money::ppm_of;

/// A step of a rule. `Loss` is the loss before the rule's first step.
#[derive(Clone, Copy)]
pub(crate) enum Step {
    /// Leaves the amounts as they are.
    Nothing,
    /// The first deductible, in cents.
    Deductible,
    /// The first deductible, as a part of the insured value.
    DeductibleOfTiv,
    /// The first deductible, as a part of the loss.
    DeductibleOfLoss,
    /// The first deductible, as a part of the limit.
    DeductibleOfLimit,
    /// The first deductible as a part of the insured value, within the minimum and the maximum.
    DeductibleOfTivWithin,
    /// The first deductible as a part of the loss, within the minimum and the maximum.
    DeductibleOfLossWithin,
    /// The first deductible, for losses below it alone.
    Franchise,
    /// The first deductible, for losses above it alone.
    ReverseFranchise,
    /// The minimum deductible.
    Minimum,
    /// The maximum deductible.
    Maximum,
    /// The minimum deductible, and where it is met the maximum.
    MinimumOrMaximum,
    /// The attachment.
    Attachment,
    /// The limit, in cents.
    Limit,
    /// The limit, as a part of the loss.
    LimitOfLoss,
    /// The first share.
    FirstShare,
    /// The second share.
    SecondShare,
    /// The third share.
    ThirdShare,
}

/// The first deductible as a part of an amount.
pub(crate) fn part_of(terms: &Profile, amount: u64) -> u64
    requires terms { IsProfile terms.now }
    requires part { is_deductible_part terms.now.rule ≡ true }
    requires amount { amount ≤ 10 ^ 17 }
    ensures value { result ≡ part_of terms.now amount }
{
    ppm_of(amount, terms.ded1 as u32)
}

/// The first deductible as a part of an amount, within the minimum and the maximum.
pub(crate) fn bounded_part_of(terms: &Profile, amount: u64) -> u64
    requires terms { IsProfile terms.now }
    requires part { is_deductible_part terms.now.rule ≡ true }
    requires amount { amount ≤ 10 ^ 17 }
    ensures value { result ≡ bounded_part_of terms.now amount }
{
    within_bounds(terms.ded2, terms.ded3, part_of(terms, amount))
}

/// The limit as a part of a loss.
fn limit_of(terms: &Profile, loss: u64) -> u64
    requires terms { IsProfile terms.now }
    requires part { is_limit_part terms.now.rule ≡ true }
    requires loss { loss ≤ 10 ^ 16 }
    ensures value { result ≡ ppm_part loss terms.now.lim1 }
{
    ppm_of(loss, terms.lim1 as u32)
}

/// What a step makes of the four amounts, by the terms, beside the insured value and the loss before the rule's first step.
pub(crate) fn after_step(step: Step, terms: &Profile, tiv: u64, loss: u64, carry: Carry) -> Carry
    requires terms { IsProfile terms.now }
    requires can { can_step step terms.now.rule ≡ true }
    requires value { tiv ≤ 10 ^ 14 }
    requires before { loss ≤ 10 ^ 16 }
    requires few { total carry ≤ 10 ^ 16 }
    ensures value { result ≡ after_step step terms.now tiv loss carry }
    ensures kept { total result ≡ total carry }
{
    match step {
        Step::Nothing => carry,
        Step::Deductible => deduct(terms.ded1, carry),
        Step::DeductibleOfTiv => deduct(part_of(terms, tiv), carry),
        Step::DeductibleOfLoss => deduct(part_of(terms, loss), carry),
        Step::DeductibleOfLimit => deduct(part_of(terms, terms.lim1), carry),
        Step::DeductibleOfTivWithin => deduct(bounded_part_of(terms, tiv), carry),
        Step::DeductibleOfLossWithin => deduct(bounded_part_of(terms, loss), carry),
        Step::Franchise => franchise(terms.ded1, carry),
        Step::ReverseFranchise => reverse_franchise(terms.ded1, carry),
        Step::Minimum => at_least(terms.ded2, carry),
        Step::Maximum => at_most(terms.ded3, carry),
        Step::MinimumOrMaximum => between(terms.ded2, terms.ded3, carry),
        Step::Attachment => attached(terms.att1, carry),
        Step::Limit => limited(terms.lim1, carry),
        Step::LimitOfLoss => limited(limit_of(terms, loss), carry),
        Step::FirstShare => shared(terms.share1, carry),
        Step::SecondShare => shared(terms.share2, carry),
        Step::ThirdShare => shared(terms.share3, carry),
    }
}
