//! The rules as steps.
//! The rules: docs/FINANCIAL_MODULE.md, "Calculation rules".
ghost use Rattle.std.specs.Prelude.{◌≡◌, ℕ, true};
ghost use Rattle.kt_rules.specs.declared.carry.Carry.{Carry};
ghost use Rattle.kt_rules.specs.declared.profile.Profile.{Profile};
ghost use Rattle.kt_rec.specs.Ranges.{is_rule_number};
ghost use Rattle.kt_rules.specs.Rules.{rule_of};
ghost use Rattle.kt_rules.specs.Steps.{after_steps, can_take};

use crate::steps::Step;
use crate::steps::Step::{
    Attachment, Deductible, DeductibleOfLimit, DeductibleOfLoss, DeductibleOfLossWithin,
    DeductibleOfTiv, DeductibleOfTivWithin, FirstShare, Franchise, Limit, LimitOfLoss, Maximum,
    Minimum, MinimumOrMaximum, Nothing, ReverseFranchise, SecondShare, ThirdShare,
};

/// The steps of a rule, filled up with such that do nothing.
#[tactic(auto, unfolding(crate::specs::Rules::rule_of))]
pub(crate) fn steps_of(rule: u32) -> [Step; 4]
    requires { is_rule_number rule ≡ true }
    ensures can { can_take result rule ≡ true }
    ensures value { (terms : Profile) (tiv : ℕ) (carry : Carry) → after_steps result terms tiv carry.loss carry ≡ rule_of rule terms tiv carry }
{
    match rule {
        1 => [Deductible, Limit, Nothing, Nothing],
        2 => [Deductible, Attachment, Limit, FirstShare],
        3 => [Franchise, Limit, Nothing, Nothing],
        4 => [DeductibleOfTiv, Limit, Nothing, Nothing],
        5 => [DeductibleOfLoss, LimitOfLoss, Nothing, Nothing],
        6 => [DeductibleOfTiv, Nothing, Nothing, Nothing],
        7 => [Maximum, Limit, Nothing, Nothing],
        8 => [Minimum, Limit, Nothing, Nothing],
        9 => [DeductibleOfLimit, Limit, Nothing, Nothing],
        10 => [Maximum, Nothing, Nothing, Nothing],
        11 => [Minimum, Nothing, Nothing, Nothing],
        12 => [Deductible, Nothing, Nothing, Nothing],
        13 => [MinimumOrMaximum, Nothing, Nothing, Nothing],
        14 => [Limit, Nothing, Nothing, Nothing],
        15 => [LimitOfLoss, Nothing, Nothing, Nothing],
        16 => [DeductibleOfLoss, Nothing, Nothing, Nothing],
        17 => [DeductibleOfLoss, Attachment, Limit, FirstShare],
        18 => [DeductibleOfTiv, Attachment, Limit, FirstShare],
        19 => [DeductibleOfLossWithin, Nothing, Nothing, Nothing],
        20 => [ReverseFranchise, Nothing, Nothing, Nothing],
        21 => [DeductibleOfTivWithin, Nothing, Nothing, Nothing],
        22 => [FirstShare, Limit, SecondShare, ThirdShare],
        23 => [Limit, SecondShare, ThirdShare, Nothing],
        24 => [Attachment, Limit, SecondShare, ThirdShare],
        25 => [FirstShare, SecondShare, ThirdShare, Nothing],
        26 => [DeductibleOfLossWithin, Limit, Nothing, Nothing],
        _ => [Nothing, Nothing, Nothing, Nothing],
    }
}
