//! The digits of a number with decimals, in a buffer.
//! The rule: docs/CALCULATION.md, "Number texts".
ghost use Rattle.std.specs.Prelude.{◌≡◌, ◌+◌, ◌^◌, ◌≤◌, ◌++◌, length, take, drop};
ghost use Rattle.kt_money.specs.NumberText.{plain};

use itoa::write_digits;

/// Writes `n / unit` with `scale` decimals into `text` so that it ends at `end`, and returns where it starts: 1 to 6
/// decimals, and the unit is 10 to that power. What stands from `end` on and before the start stays.
#[inline(always)]
pub fn write_plain(n: u64, scale: usize, unit: u64, text: &mut [u8], end: usize) -> usize
    requires positive { 1 ≤ scale }
    requires unit { unit ≡ 10 ^ scale }
    requires small { scale ≤ 6 }
    requires room { 21 + scale ≤ end }
    requires within { end ≤ length text.old }
    ensures start { result + length (plain scale n) ≡ end }
    ensures written { drop result text.new ≡ plain scale n ++ drop end text.old }
    ensures before { take result text.new ≡ take result text.old }
{
    // The one in front keeps the zeros of the decimals, and then gives its place to the point.
    let point = write_digits(unit + n % unit, text, end);
    text[point] = b'.';
    write_digits(n / unit, text, point)
}
