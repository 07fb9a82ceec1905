//! Numbers as text: counts in plain digits, amounts with two decimals, parts per million with six.
//! The rule: docs/CALCULATION.md, "Number texts".
ghost use Rattle.std.specs.Prelude.{◌≡◌, ◌++◌, OnOk, OnErr};
ghost use Rattle.kt_money.specs.NumberText.{count_text, money_text, ppm_text};

use crate::bytes::{Bytes, OutOfMemory};
use crate::decimals::write_plain;
use itoa::write_digits;

/// Appends a count in plain digits. An error is want of memory.
pub fn push_count(out: &mut Bytes, x: u64) -> Result<(), OutOfMemory>
    ensures ok { OnOk result (out.new ≡ out.old ++ count_text x) }

    ensures unchanged { OnErr result (out.new ≡ out.old) }
{
    let mut text = [0; 20];
    let start = write_digits(x, &mut text, 20);
    out.append(&text[start..])
}

/// Appends an amount of cents with two decimals, as `0.07`. An error is want of memory.
pub fn push_money(out: &mut Bytes, cents: u64) -> Result<(), OutOfMemory>
    ensures ok { OnOk result (out.new ≡ out.old ++ money_text cents) }

    ensures unchanged { OnErr result (out.new ≡ out.old) }
{
    let mut text = [0; 24];
    let start = write_plain(cents, 2, 100, &mut text, 24);
    out.append(&text[start..])
}

/// Appends parts per million as a number with six decimals, as `0.650000`. An error is want of memory.
pub fn push_ppm(out: &mut Bytes, x: u32) -> Result<(), OutOfMemory>
    ensures ok { OnOk result (out.new ≡ out.old ++ ppm_text x) }

    ensures unchanged { OnErr result (out.new ≡ out.old) }
{
    let mut text = [0; 28];
    let start = write_plain(u64::from(x), 6, 1_000_000, &mut text, 28);
    out.append(&text[start..])
}
