//! Theorems about the calculation rules, as functions with an empty body.
//! The rules: docs/FINANCIAL_MODULE.md, "The four amounts".
ghost use Rattle.std.specs.Prelude.{◌≡◌, ◌≤◌, ℕ, false};
ghost use Rattle.kt_rules.specs.declared.carry.Carry.{Carry};
ghost use Rattle.kt_rules.specs.declared.profile.Profile.{Profile};
ghost use Rattle.kt_rules.specs.Amounts.{total};
ghost use Rattle.kt_rules.specs.LossAlone.{looks_back, loss_after};
ghost use Rattle.kt_rules.specs.Rules.{rule_of, applied};
ghost use Rattle.kt_rules.specs.RuleLaws.{AreShares};

/// Each rule keeps the sum of the four amounts, whatever they are, where the shares are at most the whole.
pub fn each_rule_keeps_the_sum()
    ensures { (number : ℕ) (terms : Profile) (tiv : ℕ) (carry : Carry) → AreShares terms → total (rule_of number terms tiv carry) ≡ total carry }
{}

/// The loss that a profile leaves is not above the sum of the four amounts before it.
pub fn the_loss_is_not_above_the_sum()
    ensures { (profile : Profile) (tiv : ℕ) (carry : Carry) → AreShares profile → (applied profile tiv carry).loss ≤ total carry }
{}

/// What a profile leaves of a loss does not depend on what was taken before, where its rule does not look back.
pub fn a_rule_that_does_not_look_back_sees_the_loss_alone()
    ensures { (profile : Profile) → looks_back profile.rule ≡ false → (tiv : ℕ) (carry : Carry) → (applied profile tiv carry).loss ≡ loss_after profile tiv carry.loss }
{}
