//! The terms of a profile, in the ranges of its rule.
//! The rules: docs/FINANCIAL_MODULE.md, "Terms".
ghost use Rattle.std.specs.Prelude.{◌≡◌, ◌||◌, cond, IfOk, OnErr};
ghost use Rattle.kt_rec.specs.Ranges.{is_rule_number, is_deductible_part, is_limit_part};
ghost use Rattle.kt_rules.specs.Profiles.{is_good, profile_of, IsProfile};

use kt_rec::FmProfile;

/// A calculation rule and its terms.
#[derive(Clone, Copy)]
pub struct Profile {
    /// The rule, 1 to 26 or 100.
    pub rule: u32,
    /// The first deductible, in cents, or in parts per million by the rule.
    pub ded1: u64,
    /// The minimum deductible in cents.
    pub ded2: u64,
    /// The maximum deductible in cents.
    pub ded3: u64,
    /// The attachment in cents.
    pub att1: u64,
    /// The limit, in cents, or in parts per million by the rule.
    pub lim1: u64,
    /// The first share in parts per million.
    pub share1: u32,
    /// The second share in parts per million.
    pub share2: u32,
    /// The third share in parts per million.
    pub share3: u32,
}

/// A row has an unknown rule, or a term out of its range.
#[derive(Clone, Copy)]
pub struct BadProfile;

/// The most cents of a term.
const MOST_CENTS: u64 = 100_000_000_000_000_000;
/// Parts per million in a whole.
const WHOLE: u64 = 1_000_000;

/// Whether there is such a rule.
fn is_rule(rule: u32) -> bool
    ensures value { result ≡ is_rule_number rule }
{
    (1 <= rule && rule <= 26) || rule == 100
}

/// Whether the first deductible of a rule is in parts per million.
fn is_deductible_part(rule: u32) -> bool
    ensures value { result ≡ is_deductible_part rule }
{
    rule == 4
        || rule == 5
        || rule == 6
        || rule == 9
        || (16 <= rule && rule <= 19)
        || rule == 21
        || rule == 26
}

/// Whether the limit of a rule is in parts per million.
fn is_limit_part(rule: u32) -> bool
    ensures value { result ≡ is_limit_part rule }
{
    rule == 5 || rule == 15
}

/// The most of a term, by whether it is in parts per million.
fn most_of(is_part: bool) -> u64
    ensures value { result ≡ cond is_part 1000000 100000000000000000 }
{
    if is_part { WHOLE } else { MOST_CENTS }
}

impl Profile {
    /// Whether the rule is known and each term is in its range.
    fn is_good(&self) -> bool
        ensures value { result ≡ is_good self.now }
    {
        is_rule(self.rule)
            && self.ded1 <= most_of(is_deductible_part(self.rule))
            && self.ded2 <= MOST_CENTS
            && self.ded3 <= MOST_CENTS
            && self.att1 <= MOST_CENTS
            && self.lim1 <= most_of(is_limit_part(self.rule))
            && u64::from(self.share1) <= WHOLE
            && u64::from(self.share2) <= WHOLE
            && u64::from(self.share3) <= WHOLE
    }

    /// The profile of a row. It is refused exactly where the rule is unknown or a term is out of its range: cents are at
    /// most 10^17, parts per million at most 1,000,000.
    pub fn of(row: &FmProfile) -> Result<Profile, BadProfile>
        ensures value { IfOk result (λ profile. profile ≡ profile_of row.now) }
        ensures good { IfOk result IsProfile }

        // An unknown rule, or a term out of its range.
        ensures refused { OnErr result (¬ IsProfile (profile_of row.now)) }
    {
        let profile = Profile {
            rule: row.calcrule_id,
            ded1: row.deductible1,
            ded2: row.deductible2,
            ded3: row.deductible3,
            att1: row.attachment1,
            lim1: row.limit1,
            share1: row.share1,
            share2: row.share2,
            share3: row.share3,
        };
        if profile.is_good() {
            Ok(profile)
        } else {
            Err(BadProfile)
        }
    }
}
