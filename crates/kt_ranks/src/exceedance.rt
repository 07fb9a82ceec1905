//! The rows of one exceedance curve.
//! The rules: docs/CALCULATION.md, "Exceedance curves"; docs/OUTPUTS.md, "Exceedance curve tables".
ghost use Rattle.std.specs.Prelude.{◌≡◌, ◌+◌, ◌-◌, ◌*◌, ◌/◌, ◌≤◌, ◌<◌, ◌^◌, ℕ, List, ◌++◌, length, All, OnOk, OnErr};
ghost use Rattle.kt_ranks.specs.RankedLosses.{loss_between, lec_row, curve_rows, exceedance_loss};
ghost use Rattle.kt_ranks.specs.Ranks.{HasLosses, SameRanks};
ghost use Rattle.kt_stream.specs.Write.{BeginsWith};

use crate::ranks::{loss_of_rank, place_losses};
use kt_money::{Bytes, OutOfMemory, Row};
use std::alloc::Global;

/// What lies between two ranked losses.
fn between(count: u64, period: u32, rank: u64, upper: u64, lower: u64) -> u64
    requires some { 1 ≤ period }
    requires count { count ≤ 10 ^ 8 }
    requires within { period ≤ count }
    requires rank { rank ≡ count / period }
    ensures value { result ≡ loss_between count period rank upper lower }
{
    let weight = rank * (u64::from(period) * (rank + 1) - count);
    let part = u128::from(weight) * u128::from(upper.saturating_sub(lower)) / u128::from(count);
    lower + part as u64
}

/// The loss of a return period among `count` values, where the losses of its two ranks stand at their places.
fn exceedance_loss(ranked: &[u64], count: u64, period: u32) -> u64
    requires some { 1 ≤ period }
    requires count { count ≤ 10 ^ 8 }
    requires within { period ≤ count }
    ensures value { (values : List ℕ) → HasLosses ranked.now values count period → result ≡ exceedance_loss count values period }
{
    let rank = count / u64::from(period);
    let upper = loss_of_rank(ranked, rank - 1);
    let lower = loss_of_rank(ranked, rank);
    between(count, period, rank, upper, lower)
}

/// Appends a row: the summary id, the type or sidx, the return period and its loss. An error is want of memory.
fn append_row(
    out: &mut Bytes,
    summary: u32,
    column: u32,
    period: u32,
    loss: u64,
) -> Result<(), OutOfMemory>
    ensures ok { OnOk result (out.new ≡ out.old ++ lec_row summary column period loss) }
    ensures unchanged { OnErr result (out.new ≡ out.old) }
{
    let mut row = Row::new();
    row.put_byte(b'\n');
    row.put_money(loss);
    row.put_byte(b',');
    row.put_count(u64::from(period));
    row.put_byte(b',');
    row.put_count(u64::from(column));
    row.put_byte(b',');
    row.put_count(u64::from(summary));
    out.append(row.as_slice())
}

/// Appends the rows of a curve of `count` values, of which the losses of the ranks that it asks for stand at their places. An error is
/// want of memory; then some of the rows may stand behind what was there.
pub fn append_rows(
    out: &mut Bytes,
    summary: u32,
    column: u32,
    count: u64,
    ranked: &[u64],
    returns: &[u32],
) -> Result<(), OutOfMemory>
    requires count { count ≤ 10 ^ 8 }
    requires returns { All (λ period. 1 ≤ period) returns.now }
    ensures ok { OnOk result ((values : List ℕ) → All (λ period. period ≤ count → HasLosses ranked.now values count period) returns.now → out.new ≡ out.old ++ curve_rows summary column count values returns.now) }

    ensures kept { OnErr result (BeginsWith out.old out.new) }
{
    for period in returns {
        if u64::from(*period) > count {
            continue;
        }
        let loss = exceedance_loss(ranked, count, *period);
        append_row(out, summary, column, *period, loss)?;
    }
    Ok(())
}

/// Appends the rows of a curve of `count` values, of which those that are not listed are 0. It leaves the values in no order, whatever
/// it answers. An error is want of memory; then some of the rows may stand behind what was there.
pub fn append_values(
    out: &mut Bytes,
    alloc: Global,
    summary: u32,
    column: u32,
    count: u64,
    values: &mut [u64],
    returns: &[u32],
) -> Result<(), OutOfMemory>
    requires count { count ≤ 10 ^ 8 }
    requires returns { All (λ period. 1 ≤ period) returns.now }
    ensures ok { OnOk result ((whole : List ℕ) → SameRanks values.old whole → out.new ≡ out.old ++ curve_rows summary column count whole returns.now) }

    ensures kept { OnErr result (BeginsWith out.old out.new) }
{
    place_losses(alloc, values, count, returns)?;
    append_rows(out, summary, column, count, values, returns)
}
