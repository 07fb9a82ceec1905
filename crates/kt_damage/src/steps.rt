//! The steps of a distribution: the random numbers that fall into one bin, and the losses at them by one line of damages.
//! The rule: docs/CALCULATION.md, "Sampled loss".
ghost use Rattle.std.specs.Prelude.{◌≡◌, ℕ, ◌+◌, ◌-◌, ◌*◌, ◌/◌, ◌<◌, ◌≤◌, ◌^◌, max, IfSome};
ghost use Rattle.kt_damage.specs.Sampled.{IsLine};
ghost use Rattle.kt_damage.specs.Steps.{line_loss, IsStep, IsBinStep};
ghost use Rattle.kt_money.specs.Rounding.{ppm_part};

use kt_rec::DamageBin;

/// Parts per million in a whole.
const PPM: u64 = 1_000_000;

/// 2^64.
const WORD: u128 = 18_446_744_073_709_551_616;

/// How many numbers a step may have behind its first where the damage rises: with more, what is rounded up at each could add
/// to a loss.
const MOST_SPAN: u32 = 839_999;

/// Random numbers in parts per million that fall into one bin, and the damage at them in units of 2^-127.
#[derive(Clone, Copy)]
pub struct Step {
    /// The first of the numbers.
    pub first: u32,
    /// How many stand behind it.
    pub span: u32,
    /// The damage at the first, rounded up.
    pub least: u128,
    /// How much the damage rises from number to number, rounded up.
    pub rise: u128,
}

impl Step {
    /// The loss of an insured value at the number that stands so far behind the first.
    #[inline]
    pub fn loss(&self, tiv: u64, over: u32) -> u64
        requires value { tiv ≤ 10 ^ 14 }
        requires within { over ≤ self.now.span }
        requires fits { self.now.least + self.now.rise * self.now.span < 2 ^ 128 }
        ensures value { result ≡ line_loss tiv (self.now.least + self.now.rise * over) }
    {
        line_loss(tiv, self.least + self.rise * u128::from(over))
    }
}

/// The loss of an insured value by a damage in units of 2^-127, to the nearest whole, halves up.
#[inline]
pub fn line_loss(tiv: u64, damage: u128) -> u64
    requires value { tiv ≤ 10 ^ 14 }
    ensures value { result ≡ line_loss tiv damage }
{
    let value = u128::from(tiv);
    let low = value * (damage % WORD) / WORD;
    ((value * (damage / WORD) + low + WORD / 4) / (WORD / 2)) as u64
}

/// The part of an insured value by a part in units of 2^-127, rounded down.
pub fn line_part(tiv: u64, part: u128) -> u64
    requires value { tiv ≤ 10 ^ 14 }
    ensures value { result ≡ tiv * part / 2 ^ 127 }
{
    let value = u128::from(tiv);
    let low = value * (part % WORD) / WORD;
    ((value * (part / WORD) + low) / (WORD / 2)) as u64
}

/// A part of a whole in units of 2^-127, rounded up. It may pass the whole by a half.
pub fn scaled(part: u64, whole: u64) -> u128
    requires some { 0 < whole }
    requires few { whole < 2 ^ 62 }
    requires within { 2 * part ≤ 3 * whole }
    ensures least { part * 2 ^ 127 ≤ result * whole }
    ensures most { result * whole < part * 2 ^ 127 + whole }
{
    let whole = u128::from(whole);
    let wide = u128::from(part) * WORD;
    let high = wide / whole;
    let rest = (wide - high * whole) * (WORD / 2) + (whole - 1);
    high * (WORD / 2) + rest / whole
}

/// How many numbers stand behind the first of a step, of so many that fall into its bin.
fn span_of(slope: u64, span: u32) -> u32
    ensures within { result ≤ span }
    ensures few { 0 < slope → result ≤ 839999 }
{
    if slope == 0 {
        span
    } else {
        span.min(MOST_SPAN)
    }
}

/// How much the damage rises from number to number.
fn rise_of(slope: u64, unit: u64, span: u32) -> u128
    requires some { 0 < unit }
    requires few { unit < 2 ^ 62 }
    requires within { 0 < span → slope ≤ unit }
    requires short { 0 < slope → span ≤ 839999 }
    ensures least { (over : ℕ) → over ≤ span → slope * over * 2 ^ 127 ≤ result * over * unit }
    ensures most { (over : ℕ) → over ≤ span → result * over * unit ≤ slope * over * 2 ^ 127 + 839999 * unit }
{
    if span == 0 {
        return 0;
    }
    if slope == 0 {
        return 0;
    }
    scaled(slope, unit)
}

/// The step of the numbers that fall into a bin which begins at the probability `before` and ends at `upto`, and whose damage
/// goes from `low` to `high`: a first one, and so many behind it.
fn line_of(low: u32, high: u32, before: u64, upto: u64, first: u32, span: u32) -> Step
    requires { IsLine low high before upto first span }
    ensures value { IsBinStep low high before upto result }
{
    let width = upto - before;
    let unit = PPM * width;
    let rate = u64::from(high.saturating_sub(low));
    let slope = PPM * rate;
    let span = span_of(slope, span);
    let base = u64::from(low) * width + rate * (PPM * u64::from(first) - before);
    Step {
        first,
        span,
        least: scaled(base, unit),
        rise: rise_of(slope, unit, span),
    }
}

/// The first random number behind a probability, and 0 where that is 0.
fn first_behind(before: u64) -> u32
    requires { before ≤ 1002001000000 }
    ensures above { before < max (result * 1000000) 1 }
    ensures from { before ≤ result * 1000000 }
    ensures few { result ≤ 1002002 }
{
    if before == 0 {
        0
    } else {
        (before / PPM) as u32 + 1
    }
}

/// The step of a bin that begins at the probability `before` and ends at `upto`, where a random number falls into it.
pub fn bin_step(damage: &DamageBin, before: u64, upto: u64) -> Option<Step>
    requires least { damage.now.bin_from ≤ 1000000 }
    requires most { damage.now.bin_to ≤ 1000000 }
    requires whole { upto ≤ 1002001000000 }
    requires order { before ≤ upto }
    ensures value { IfSome result (IsBinStep damage.now.bin_from damage.now.bin_to before upto) }
{
    let first = first_behind(before);
    let last = (upto / PPM) as u32;
    if before == upto || last < first {
        return None;
    }
    Some(line_of(
        damage.bin_from,
        damage.bin_to,
        before,
        upto,
        first,
        last - first,
    ))
}

/// The step behind all bins, of which the last ends at a probability and at a damage.
pub fn end_step(before: u64, high: u32) -> Step
    requires whole { before ≤ 1002001000000 }
    requires most { high ≤ 1000000 }
    ensures value { IsStep (λ tiv number. ppm_part tiv high) result }
    ensures above { before < max (result.first * 1000000) 1 }
{
    let first = first_behind(before);
    Step {
        first,
        span: u32::MAX - first,
        least: scaled(u64::from(high), PPM),
        rise: 0,
    }
}
