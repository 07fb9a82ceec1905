//! What a profile makes of the four amounts.
//! The rules: docs/FINANCIAL_MODULE.md, "Calculation rules".
ghost use Rattle.std.specs.Prelude.{◌≡◌, ◌≤◌, ◌^◌};
ghost use Rattle.kt_rules.specs.Amounts.{total};
ghost use Rattle.kt_rules.specs.Profiles.{IsProfile};
ghost use Rattle.kt_rules.specs.Rules.{applied};

use crate::carry::Carry;
use crate::profile::Profile;
use crate::steps::after_step;
use crate::table::steps_of;

/// What the rule of a profile makes of the four amounts, which add to at most 10^16 cents, beside an insured value of at most
/// 10^14 cents. Their sum is kept. The profile is one that `Profile::of` gives.
#[tactic(auto, using(crate::proofs::ProfileLemmas::can_take_at))]
pub fn apply(profile: &Profile, tiv: u64, carry: Carry) -> Carry
    requires profile { IsProfile profile.now }
    requires value { tiv ≤ 10 ^ 14 }
    requires few { total carry ≤ 10 ^ 16 }
    ensures value { result ≡ applied profile.now tiv carry }
    ensures conserved { total result ≡ total carry }
{
    let loss = carry.loss;
    let [first, second, third, fourth] = steps_of(profile.rule);
    let carry = after_step(first, profile, tiv, loss, carry);
    let carry = after_step(second, profile, tiv, loss, carry);
    let carry = after_step(third, profile, tiv, loss, carry);
    after_step(fourth, profile, tiv, loss, carry)
}
