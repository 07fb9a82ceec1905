//! What a profile leaves of a loss, where its rule sees the loss alone.
//! The rules: docs/FINANCIAL_MODULE.md, "Calculation rules".
ghost use Rattle.std.specs.Prelude.{◌≡◌, ◌≤◌, ◌^◌};
ghost use Rattle.kt_rules.specs.LossAlone.{looks_back, loss_after};
ghost use Rattle.kt_rules.specs.Profiles.{IsProfile};

use crate::carry::Carry;
use crate::profile::Profile;
use crate::rule::apply;

/// Whether the rule of a profile looks at what was taken of a loss before: it has a minimum or a maximum deductible. Each other
/// rule sees the loss alone.
pub fn looks_back(profile: &Profile) -> bool
    ensures value { result ≡ looks_back profile.now.rule }
{
    let rule = profile.rule;
    rule == 7 || rule == 8 || rule == 10 || rule == 11 || rule == 13
}

/// What a profile leaves of a loss of at most 10^16 cents of which nothing was taken, beside an insured value of at most 10^14
/// cents. The profile is one that `Profile::of` gives.
pub fn loss_after(profile: &Profile, tiv: u64, loss: u64) -> u64
    requires profile { IsProfile profile.now }
    requires value { tiv ≤ 10 ^ 14 }
    requires few { loss ≤ 10 ^ 16 }
    ensures value { result ≡ loss_after profile.now tiv loss }
    ensures few { result ≤ loss }
{
    let carry = Carry {
        loss,
        ded: 0,
        over: 0,
        kept: 0,
    };
    apply(profile, tiv, carry).loss
}
