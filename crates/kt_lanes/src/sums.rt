//! Lanes side by side, added sidx by sidx: four at a time, so that the sums are read and written once for four lanes.
//! The rules: docs/FINANCIAL_MODULE.md, "Levels".
ghost use Rattle.std.specs.Prelude.{◌≡◌, ℕ, ◌+◌, ◌<◌, ◌≤◌, ◌^◌, length, take, drop, slice_index};
ghost use Rattle.std.specs.List.{sum};
ghost use Rattle.kt_lanes.specs.Lanes.{column, AreWide, IsLane};

use crate::lanes::Lanes;

/// Puts the amounts of two lanes in cents, added sidx by sidx, in the place of what a third has.
fn put_two(first: &[u64], second: &[u64], sums: &mut [u64])
    requires first_wide { length first.now ≡ length sums.old }
    requires second_wide { length second.now ≡ length sums.old }
    requires few { (k : ℕ) → k < length sums.old → slice_index first.now k + slice_index second.now k < 2 ^ 64 }
    ensures value { IsLane (length sums.old) (λ k. slice_index first.now k + slice_index second.now k) sums.new }
{
    for k in 0..sums.len() {
        sums[k] = first[k] + second[k];
    }
}

/// Puts the amounts of three lanes in cents, added sidx by sidx, in the place of what a fourth has.
fn put_three(first: &[u64], second: &[u64], third: &[u64], sums: &mut [u64])
    requires first_wide { length first.now ≡ length sums.old }
    requires second_wide { length second.now ≡ length sums.old }
    requires third_wide { length third.now ≡ length sums.old }
    requires few { (k : ℕ) → k < length sums.old → slice_index first.now k + slice_index second.now k + slice_index third.now k < 2 ^ 64 }
    ensures value { IsLane (length sums.old) (λ k. slice_index first.now k + slice_index second.now k + slice_index third.now k) sums.new }
{
    for k in 0..sums.len() {
        sums[k] = first[k] + second[k] + third[k];
    }
}

/// Puts the amounts of four lanes in cents, added sidx by sidx, in the place of what a fifth has.
fn put_four(first: &[u64], second: &[u64], third: &[u64], fourth: &[u64], sums: &mut [u64])
    requires first_wide { length first.now ≡ length sums.old }
    requires second_wide { length second.now ≡ length sums.old }
    requires third_wide { length third.now ≡ length sums.old }
    requires fourth_wide { length fourth.now ≡ length sums.old }
    requires few { (k : ℕ) → k < length sums.old → slice_index first.now k + slice_index second.now k + slice_index third.now k + slice_index fourth.now k < 2 ^ 64 }
    ensures value { IsLane (length sums.old) (λ k. slice_index first.now k + slice_index second.now k + slice_index third.now k + slice_index fourth.now k) sums.new }
{
    for k in 0..sums.len() {
        sums[k] = first[k] + second[k] + third[k] + fourth[k];
    }
}

/// Adds the amounts of four lanes to those of a fifth, in cents.
fn add_four(first: &[u64], second: &[u64], third: &[u64], fourth: &[u64], sums: &mut [u64])
    requires first_wide { length first.now ≡ length sums.old }
    requires second_wide { length second.now ≡ length sums.old }
    requires third_wide { length third.now ≡ length sums.old }
    requires fourth_wide { length fourth.now ≡ length sums.old }
    requires few { (k : ℕ) → k < length sums.old → slice_index sums.old k + (slice_index first.now k + slice_index second.now k + slice_index third.now k + slice_index fourth.now k) < 2 ^ 64 }
    ensures value { IsLane (length sums.old) (λ k. slice_index sums.old k + (slice_index first.now k + slice_index second.now k + slice_index third.now k + slice_index fourth.now k)) sums.new }
{
    for k in 0..sums.len() {
        sums[k] += first[k] + second[k] + third[k] + fourth[k];
    }
}

/// Puts the amounts of four lanes side by side or fewer, added sidx by sidx, in the place of what a lane has.
fn sum_few(lanes: &Lanes, start: usize, count: usize, sums: &mut [u64])
    requires most { count ≤ 4 }
    requires within { start + count ≤ length lanes.now }
    requires wide { AreWide (length sums.old) lanes.now }
    requires few { (k : ℕ) → k < length sums.old → sum (column k (take count (drop start lanes.now))) ≤ 10 ^ 16 }
    ensures value { IsLane (length sums.old) (λ k. sum (column k (take count (drop start lanes.now)))) sums.new }
{
    let _all = lanes.len();
    if count == 0 {
        sums.fill(0);
        return;
    }
    let first = lanes.lane(start);
    if count == 1 {
        sums.copy_from_slice(first);
        return;
    }
    let second = lanes.lane(start + 1);
    if count == 2 {
        put_two(first, second, sums);
        return;
    }
    let third = lanes.lane(start + 2);
    if count == 3 {
        put_three(first, second, third, sums);
        return;
    }
    put_four(first, second, third, lanes.lane(start + 3), sums);
}

/// Adds four lanes more to what lanes side by side, from a place on, have in all.
fn sum_four_more(lanes: &Lanes, start: usize, count: usize, sums: &mut [u64])
    requires within { start + (count + 4) ≤ length lanes.now }
    requires wide { AreWide (length sums.old) lanes.now }
    requires few { (k : ℕ) → k < length sums.old → sum (column k (take (count + 4) (drop start lanes.now))) ≤ 10 ^ 16 }
    requires sums { IsLane (length sums.old) (λ k. sum (column k (take count (drop start lanes.now)))) sums.old }
    ensures value { IsLane (length sums.old) (λ k. sum (column k (take (count + 4) (drop start lanes.now)))) sums.new }
{
    let _all = lanes.len();
    let at = start + count;
    add_four(
        lanes.lane(at),
        lanes.lane(at + 1),
        lanes.lane(at + 2),
        lanes.lane(at + 3),
        sums,
    );
}

/// Puts the amounts of lanes side by side, added sidx by sidx, in the place of what a lane has.
pub fn sum_lanes(lanes: &Lanes, start: usize, count: usize, sums: &mut [u64])
    requires within { start + count ≤ length lanes.now }
    requires wide { AreWide (length sums.old) lanes.now }
    requires few { (k : ℕ) → k < length sums.old → sum (column k (take count (drop start lanes.now))) ≤ 10 ^ 16 }
    ensures value { IsLane (length sums.old) (λ k. sum (column k (take count (drop start lanes.now)))) sums.new }
{
    let fours = count.saturating_sub(1) / 4;
    let few = count - 4 * fours;
    sum_few(lanes, start, few, sums);
    for done in 0..fours {
        sum_four_more(lanes, start, few + 4 * done, sums);
    }
}
