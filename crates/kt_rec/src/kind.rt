//! The kinds of columns: their widths in a file, and the values that they may have.
//! The rule: docs/TABLES.md, "Kinds of values".
ghost use Rattle.std.specs.Prelude.{◌≡◌, ◌≢◌, ◌<◌, ◌⊎◌, true, false, Ok, Err};
ghost use Rattle.kt_rec.specs.Kinds.{width, decimals, under, is_ppm, is_rule, lowest, highest, in_range, within, known_rule};

use crate::cause::Cause;

/// A term of a profile whose unit goes by the calculation rule.
#[derive(Clone, Copy)]
pub enum Term {
    /// `deductible1`.
    Deductible,
    /// `limit1`.
    Limit,
}

/// The kind of a column.
#[derive(Clone, Copy)]
pub enum Kind {
    /// A number that names something, 1 to 2,147,483,647.
    Id,
    /// A count or code, 0 to 2,147,483,647.
    Count,
    /// An intensity bin, 1 to 10,000.
    IntensityBin,
    /// A damage bin, 1 to 1,000.
    DamageBin,
    /// A level of the financial module, 1 to 12.
    Level,
    /// A layer, 1 to 50.
    Layer,
    /// A summary set, 1 to 9.
    SummarySet,
    /// A calculation rule, 1 to 26 or 100.
    Rule,
    /// A place in a file or a size in bytes, 0 to 2^40.
    Offset,
    /// A total insured value in cents, 0 to 10^14.
    Tiv,
    /// An amount in cents, 0 to 10^17.
    Amount,
    /// Parts per million, 0 to 1,000,000.
    Ppm,
    /// An amount in cents or parts per million, by the rule of its row.
    Term(Term),
}

impl Term {
    /// Whether the term is in parts per million under a calculation rule.
    pub fn is_ppm(self, rule: u64) -> bool
        ensures { result ≡ is_ppm self rule }
    {
        match self {
            Term::Deductible => {
                rule == 4
                    || rule == 5
                    || rule == 6
                    || rule == 9
                    || (16 <= rule && rule <= 19)
                    || rule == 21
                    || rule == 26
            }
            Term::Limit => rule == 5 || rule == 15,
        }
    }
}

impl Kind {
    /// How many bytes a value takes in a file.
    pub fn width(self) -> usize
        ensures { result ≡ width self }
    {
        match self {
            Kind::Offset | Kind::Tiv | Kind::Amount | Kind::Term(_) => 8,
            _ => 4,
        }
    }

    /// How many decimals the text of a value may have: 2 for an amount, 6 for parts per million, none for any other.
    pub fn decimals(self) -> usize
        ensures value { result ≡ decimals self }
        ensures scale { 0 < result → (result ≡ 2) ⊎ (result ≡ 6) }
    {
        match self {
            Kind::Tiv | Kind::Amount | Kind::Term(_) => 2,
            Kind::Ppm => 6,
            _ => 0,
        }
    }

    /// The kind under a calculation rule: a term is an amount or parts per million.
    #[inline(always)]
    pub fn under(self, rule: u64) -> Kind
        ensures { result ≡ under rule self }
    {
        match self {
            Kind::Term(term) => term_under(term, rule),
            _ => self,
        }
    }

    /// The value, if it is one of the kind: below its range is `Zero`, above it `TooLarge`, and a number that is no
    /// calculation rule is `Rule`. An error is the one of these that holds.
    #[tactic(auto, unfolding(crate::specs::Kinds::in_range))]
    #[inline(always)]
    pub fn in_range(self, value: u64) -> Result<u64, Cause>
        ensures { result ≡ in_range self value }
    {
        match self {
            Kind::Rule => checked_rule(value),
            _ => checked(self.lowest(), self.highest(), value),
        }
    }

    /// Whether the value is one of the kind.
    #[tactic(auto, unfolding(crate::specs::Kinds::in_range))]
    #[inline(always)]
    pub fn holds(self, value: u64) -> bool
        ensures held { result ≡ true → in_range self value ≡ Ok value }
        ensures out { result ≡ false → in_range self value ≢ Ok value }
    {
        match self {
            Kind::Rule => is_known_rule(value),
            _ => is_within(self.lowest(), self.highest(), value),
        }
    }

    // The least value of the kind.
    fn lowest(self) -> u64
        ensures { result ≡ lowest self }
    {
        match self {
            Kind::Count | Kind::Offset | Kind::Tiv | Kind::Amount | Kind::Ppm | Kind::Term(_) => 0,
            _ => 1,
        }
    }

    // The greatest value of the kind.
    fn highest(self) -> u64
        ensures { result ≡ highest self }
    {
        match self {
            Kind::Id | Kind::Count => 2_147_483_647,
            Kind::IntensityBin => 10_000,
            Kind::DamageBin => 1_000,
            Kind::Level => 12,
            Kind::Layer => 50,
            Kind::SummarySet => 9,
            Kind::Rule => 100,
            Kind::Offset => 1_099_511_627_776,
            Kind::Tiv => 100_000_000_000_000,
            Kind::Amount | Kind::Term(_) => 100_000_000_000_000_000,
            Kind::Ppm => 1_000_000,
        }
    }
}

// The kind of a term under a rule.
fn term_under(term: Term, rule: u64) -> Kind
    ensures { result ≡ under rule (Kind.Term term) }
{
    if term.is_ppm(rule) {
        Kind::Ppm
    } else {
        Kind::Amount
    }
}

// Whether a value is a calculation rule.
fn is_known_rule(value: u64) -> bool
    ensures known { result ≡ true → known_rule value ≡ Ok value }
    ensures unknown { result ≡ false → known_rule value ≡ Err Cause.Rule }
{
    (1 <= value && value <= 26) || value == 100
}

// The value, if it is a calculation rule.
fn checked_rule(value: u64) -> Result<u64, Cause>
    ensures { result ≡ known_rule value }
{
    if is_known_rule(value) {
        Ok(value)
    } else {
        Err(Cause::Rule)
    }
}

// Whether a value lies from `least` to `most`.
#[inline(always)]
fn is_within(least: u64, most: u64, value: u64) -> bool
    ensures held { result ≡ true → within least most value ≡ Ok value }
    ensures out { result ≡ false → within least most value ≢ Ok value }
{
    if value < least || most < value {
        return false;
    }
    true
}

/// The value, if it lies from `least` to `most`: below them it is `Zero`, above them `TooLarge`. An error is the one that holds.
#[inline(always)]
pub fn checked(least: u64, most: u64, value: u64) -> Result<u64, Cause>
    ensures { result ≡ within least most value }
{
    if value < least {
        Err(Cause::Zero)
    } else if most < value {
        Err(Cause::TooLarge)
    } else {
        Ok(value)
    }
}
