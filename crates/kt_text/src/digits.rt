//! The number that digits write, as far as it matters.
//! The rule: docs/TABLES.md, "Numbers in a text".

ghost use Rattle.std.specs.Prelude.{◌≡◌, ◌*◌, ◌^◌, ◌≤◌, ◌+◌, min};
ghost use Rattle.std.specs.Str.Parse.{digits_value_after, AllDigits};

/// A number of at most 18 digits is below this.
pub(crate) const TOO_MANY: u64 = 1_000_000_000_000_000_000;

/// The number that the digits write behind those of `start`, or `most` where that is less.
pub(crate) fn capped_value(start: u64, digits: &[u8], most: u64) -> u64
    requires digits { AllDigits 10 digits.now }
    requires start { start ≤ most }
    requires most { most ≤ 10 ^ 18 }
    ensures { result ≡ min (digits_value_after 10 start digits.now) most }
{
    let mut value = start;
    for digit in digits {
        value = (value * 10 + u64::from(*digit - b'0')).min(most);
    }
    value
}
