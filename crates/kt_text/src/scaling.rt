//! Digits times a power of ten, rounded half up.
//! The rule: docs/TABLES.md, "Numbers in a text".

ghost use Rattle.std.specs.Prelude.{◌≡◌, ◌<◌, ◌+◌, ◌*◌, ◌^◌, min, if◌then◌else◌};
ghost use Rattle.kt_money.specs.Rounding.{half_up};

use crate::digits::TOO_MANY;

/// The digits, of which `places` stand behind the point, times 10^`exponent`, in units of 10^-`scale`:
/// rounded half up, or 10^18 where that is less.
pub(crate) fn scaled(digits: u64, scale: u64, places: u64, exponent: u64, negative: bool) -> u64
    requires digits { digits < 10 ^ 18 }
    requires scale { scale < 10 }
    requires places { places < 2 ^ 63 }
    requires exponent { exponent < 31 }
    ensures { result ≡ min (half_up (digits * 10 ^ (scale + (if negative then 0 else exponent)))
        (10 ^ (places + (if negative then exponent else 0)))) (10 ^ 18) }
{
    if negative {
        moved(digits, scale, places + exponent)
    } else {
        moved(digits, scale + exponent, places)
    }
}

// The digits times 10^`up` / 10^`down`, rounded half up, or 10^18 where that is less.
fn moved(digits: u64, up: u64, down: u64) -> u64
    requires { digits < 10 ^ 18 }
    ensures { result ≡ min (half_up (digits * 10 ^ up) (10 ^ down)) (10 ^ 18) }
{
    if down <= up {
        raised(digits, up - down)
    } else {
        lowered(digits, down - up)
    }
}

// The digits with so many zeros behind them, or 10^18 where that is less.
#[tactic(auto, using(crate::proofs::ScalingLemmas::scaling))]
fn raised(digits: u64, places: u64) -> u64
    requires { digits < 10 ^ 18 }
    ensures { result ≡ min (digits * 10 ^ places) (10 ^ 18) }
{
    let power = 10u128.pow(places.min(18) as u32);
    (u128::from(digits) * power).min(u128::from(TOO_MANY)) as u64
}

// The digits without the last so many, rounded half up. With more than 19 places nothing is left.
#[tactic(auto, using(crate::proofs::ScalingLemmas::scaling))]
fn lowered(digits: u64, places: u64) -> u64
    requires digits { digits < 10 ^ 18 }
    requires places { 0 < places }
    ensures { result ≡ half_up digits (10 ^ places) }
{
    let power = 10u64.pow(places.min(19) as u32);
    (digits + power / 2) / power
}
