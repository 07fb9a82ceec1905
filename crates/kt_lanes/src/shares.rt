//! Totals shared out over lanes, sidx by sidx.
//! The rule: docs/CALCULATION.md, "Share-out".
ghost use Rattle.std.specs.Prelude.{◌≡◌, ◌+◌, ◌-◌, ◌≤◌, ◌<◌, ◌^◌, ℕ, length, take, drop, IfOk, IfSome, OnErr, OnOk, slice_index};
ghost use Rattle.std.specs.List.{sum};
ghost use Rattle.kt_money.specs.Sharing.{share_out};
ghost use Rattle.kt_lanes.specs.Lanes.{column, AreWide, IsLane};
ghost use Rattle.kt_lanes.specs.Shares.{CanShare, HasRoom};
ghost use Rattle.kt_lanes.specs.SideBySide.{AreBehind, BeginsWith};

use crate::lane::{clear, no_amounts};
use crate::lanes::Lanes;
use crate::parts::{fill_weights, find_ratios, share_next};
use crate::split::split_totals;
use crate::sums::sum_lanes;
use std::alloc::{AllocError, Global};
use std::mem::swap;

/// Room to share totals out: amounts in cents, sidx by sidx.
#[derive(Drop)]
pub struct Room {
    /// What all children have, and 1 where they have nothing.
    pub weights: Vec<u64>,
    /// The quotients of totals and these.
    pub ratios: Vec<f64>,
    /// What the first children have.
    pub upto: Vec<u64>,
    /// What these were paid, and then the share of the next child.
    pub paid: Vec<u64>,
    /// What these and the next child are due.
    pub due: Vec<u64>,
}

/// So many quotients, all 0. An error is want of memory.
fn no_ratios(alloc: Global, width: usize) -> Result<Vec<f64>, AllocError>
    ensures wide { IfOk result (λ ratios. length ratios.items ≡ width) }
{
    vec![in alloc; 0.0; width]
}

/// Room for lanes of so many sidx. An error is want of memory.
pub fn room_of(alloc: Global, width: usize) -> Result<Room, AllocError>
    ensures room { IfOk result (HasRoom width) }
{
    let weights = no_amounts(alloc, width)?;
    let ratios = no_ratios(alloc, width)?;
    let upto = no_amounts(alloc, width)?;
    let paid = no_amounts(alloc, width)?;
    let due = no_amounts(alloc, width)?;
    Ok(Room {
        weights,
        ratios,
        upto,
        paid,
        due,
    })
}

/// Puts what is left of totals in cents, sidx by sidx, in the place of what was paid of them.
fn take_paid(totals: &[u64], paid: &mut [u64])
    requires same { length totals.now ≡ length paid.old }
    requires few { (k : ℕ) → k < length paid.old → slice_index paid.old k ≤ slice_index totals.now k }
    ensures value { IsLane (length paid.old) (λ k. slice_index totals.now k - slice_index paid.old k) paid.new }
{
    for k in 0..paid.len() {
        paid[k] = totals[k] - paid[k];
    }
}

/// Puts shares of totals behind others, as `share_lanes`, where there are two children.
fn push_two(
    totals: &[u64],
    lanes: &Lanes,
    start: usize,
    parts: &mut [u64],
    rests: &mut [u64],
    out: &mut Lanes,
) -> Result<(), AllocError>
    requires within { start + 2 ≤ length lanes.now }
    requires wide { AreWide (length totals.now) lanes.now }
    requires parts_wide { length parts.old ≡ length totals.now }
    requires rests_wide { length rests.old ≡ length totals.now }
    requires out { AreWide (length totals.now) out.old }
    requires can { CanShare totals.now (take 2 (drop start lanes.now)) }
    ensures value { OnOk result (AreBehind (length totals.now) 2 (λ k. share_out (slice_index totals.now k) (column k (take 2 (drop start lanes.now)))) out.old out.new) }
    ensures kept { OnErr result (BeginsWith out.old out.new) }
{
    let _all = lanes.len();
    let first = lanes.lane(start);
    let second = lanes.lane(start + 1);
    split_totals(totals, first, second, parts, rests);
    out.push(parts)?;
    out.push(rests)
}

/// Puts what lanes side by side have in all, sidx by sidx, in the place of what a lane has: it is added up where it is not known.
fn take_sums(lanes: &Lanes, start: usize, count: usize, known: Option<&[u64]>, sums: &mut [u64])
    requires within { start + count ≤ length lanes.now }
    requires wide { AreWide (length sums.old) lanes.now }
    requires few { (k : ℕ) → k < length sums.old → sum (column k (take count (drop start lanes.now))) ≤ 10 ^ 16 }
    requires known { IfSome known (λ all. IsLane (length sums.old) (λ k. sum (column k (take count (drop start lanes.now)))) all.now) }
    ensures value { IsLane (length sums.old) (λ k. sum (column k (take count (drop start lanes.now)))) sums.new }
{
    match known {
        Some(all) => sums.copy_from_slice(all),
        None => sum_lanes(lanes, start, count, sums),
    }
}

/// Puts shares of totals behind others, as `share_lanes`, where there are three children or more. The weights are what these have in
/// all.
fn push_shares(
    totals: &[u64],
    lanes: &Lanes,
    start: usize,
    count: usize,
    weights: &mut [u64],
    ratios: &mut [f64],
    upto: &mut [u64],
    paid: &mut Vec<u64>,
    due: &mut Vec<u64>,
    out: &mut Lanes,
) -> Result<(), AllocError>
    requires some { 2 < count }
    requires within { start + count ≤ length lanes.now }
    requires wide { AreWide (length totals.now) lanes.now }
    requires weights { IsLane (length totals.now) (λ k. sum (column k (take count (drop start lanes.now)))) weights.old }
    requires ratios_wide { length ratios.old ≡ length totals.now }
    requires upto_wide { length upto.old ≡ length totals.now }
    requires paid_wide { length paid.old.items ≡ length totals.now }
    requires due_wide { length due.old.items ≡ length totals.now }
    requires out { AreWide (length totals.now) out.old }
    requires can { CanShare totals.now (take count (drop start lanes.now)) }
    ensures paid_wide { length paid.new.items ≡ length totals.now }
    ensures due_wide { length due.new.items ≡ length totals.now }
    ensures value { OnOk result (AreBehind (length totals.now) count (λ k. share_out (slice_index totals.now k) (column k (take count (drop start lanes.now)))) out.old out.new) }
    ensures kept { OnErr result (BeginsWith out.old out.new) }
{
    let _all = lanes.len();
    let bits = fill_weights(weights);
    find_ratios(totals, weights, ratios);
    clear(upto);
    clear(paid);
    let last = count - 1;
    for at in 0..last {
        let lane = lanes.lane(start + at);
        share_next(totals, weights, ratios, bits, lane, upto, paid, due);
        out.push(paid)?;
        swap(paid, due);
    }
    take_paid(totals, paid);
    out.push(paid)
}

/// Puts totals in cents, shared out over lanes side by side, sidx by sidx, behind others. No total is above what these lanes have
/// in all, so the last has what the others leave. What they have in all may be known. An error is want of memory; then some of the
/// shares may stand behind what was there.
pub fn share_lanes(
    totals: &[u64],
    lanes: &Lanes,
    start: usize,
    count: usize,
    sums: Option<&[u64]>,
    room: &mut Room,
    out: &mut Lanes,
) -> Result<(), AllocError>
    requires within { start + count ≤ length lanes.now }
    requires wide { AreWide (length totals.now) lanes.now }
    requires sums { IfSome sums (λ all. IsLane (length totals.now) (λ k. sum (column k (take count (drop start lanes.now)))) all.now) }
    requires room { HasRoom (length totals.now) room.old }
    requires out { AreWide (length totals.now) out.old }
    requires few { (k : ℕ) → k < length totals.now → sum (column k (take count (drop start lanes.now))) ≤ 10 ^ 16 }
    requires backed { (k : ℕ) → k < length totals.now → slice_index totals.now k ≤ sum (column k (take count (drop start lanes.now))) }
    ensures room { HasRoom (length totals.now) room.new }
    ensures value { OnOk result (AreBehind (length totals.now) count (λ k. share_out (slice_index totals.now k) (column k (take count (drop start lanes.now)))) out.old out.new) }
    ensures kept { OnErr result (BeginsWith out.old out.new) }
{
    if count == 0 {
        return Ok(());
    }
    if count == 1 {
        return out.push(totals);
    }
    if count == 2 {
        return push_two(totals, lanes, start, &mut room.paid, &mut room.due, out);
    }
    take_sums(lanes, start, count, sums, &mut room.weights);
    push_shares(
        totals,
        lanes,
        start,
        count,
        &mut room.weights,
        &mut room.ratios,
        &mut room.upto,
        &mut room.paid,
        &mut room.due,
        out,
    )
}
