//! The summaries of a run whose losses are kept by lanes, in several sets at once.
//! The rule: docs/CALCULATION.md, "Summaries".
ghost use Rattle.std.specs.Prelude.{◌≡◌, ℕ, false, ◌+◌, ◌<◌, ◌≤◌, length, map, All, Option, IfOk, OnOk};
ghost use Rattle.std.specs.Option.{IfSome};
ghost use Rattle.kt_stream.specs.Losses.{IsLoss};
ghost use Rattle.kt_stream.specs.Summary.{IsSummary};
ghost use Rattle.kt_runs.specs.RunLosses.{AreWithin};
ghost use Rattle.kt_sum.specs.SetSums.{AreReady, HoldLanes, set_records};
ghost use Rattle.kt_sum.specs.Totals.{IsTotal};
ghost use Rattle.kt_tables.specs.Lookups.{summary_in};

use crate::set_records::SetRecords;
use crate::set_sums::SetSums;
use kt_rec::Perspective;
use kt_runs::LossLanes;
use kt_tables::Portfolio;
use std::alloc::{AllocError, Global};

/// Sums of 0 for the summaries that each of some sets has for the ids of lanes, in a run with so many samples. An error is want of
/// memory.
fn no_set_sums(
    alloc: Global,
    portfolio: &Portfolio,
    samples: u32,
    perspective: Perspective,
    sets: &[u32],
    losses: &LossLanes,
) -> Result<Vec<SetSums>, AllocError>
    requires rows { losses.now.rows ≡ samples + 1 }
    ensures sets { IfOk result (λ sums. map (λ one. one.set) sums.items ≡ sets.now) }
    ensures ready { IfOk result (λ sums. All (AreReady losses.now) sums.items) }
    ensures none { IfOk result (λ sums. All (HoldLanes (summary_in perspective portfolio.now.rows) losses.now 0) sums.items) }
{
    let ids = losses.ids(alloc)?;
    let width = samples as usize + 3;
    let mut sums = Vec::with_capacity(alloc, sets.len())?;
    for set in sets {
        sums.push(SetSums::new(alloc, portfolio, perspective, *set, width, &ids)?)?;
    }
    Ok(sums)
}

/// Adds the lane in a place to the sums of each set but those that wait.
fn add_lane_to_each(sums: &mut [SetSums], losses: &LossLanes, place: usize)
    requires place { place < length losses.now.records }
    requires some { 1 ≤ losses.now.rows }
    requires within { AreWithin losses.now.records }
    requires ready { All (AreReady losses.now) sums.old }
    ensures sets { map (λ one. one.set) sums.new ≡ map (λ one. one.set) sums.old }
    ensures ready { All (AreReady losses.now) sums.new }
    ensures more { (find : ℕ → ℕ → Option ℕ) → All (HoldLanes find losses.now place) sums.old → All (HoldLanes find losses.now (place + 1)) sums.new }
{
    for at in 0..sums.len() {
        sums[at].add(losses, place);
    }
}

/// Adds all lanes to the sums of each set but those that wait, lane by lane: each is read once for all sets.
fn add_lanes(sums: &mut [SetSums], losses: &LossLanes)
    requires some { 1 ≤ losses.now.rows }
    requires within { AreWithin losses.now.records }
    requires ready { All (AreReady losses.now) sums.old }
    ensures sets { map (λ one. one.set) sums.new ≡ map (λ one. one.set) sums.old }
    ensures ready { All (AreReady losses.now) sums.new }
    ensures all { (find : ℕ → ℕ → Option ℕ) → All (HoldLanes find losses.now 0) sums.old → All (HoldLanes find losses.now (length losses.now.records)) sums.new }
{
    for place in 0..losses.len() {
        add_lane_to_each(sums, losses, place);
    }
}

/// What all lanes come to, sidx by sidx from -2 up, in so many places, where the sums of a set tell it. An error is want of memory.
fn total_of_sets(
    alloc: Global,
    width: usize,
    sums: &[SetSums],
    losses: &LossLanes,
) -> Result<Option<Vec<u64>>, AllocError>
    requires width { losses.now.rows + 2 ≡ width }
    requires within { AreWithin losses.now.records }
    requires ready { All (AreReady losses.now) sums.now }
    ensures width { IfOk result (λ found. IfSome found (λ total. length total.items ≡ losses.now.rows + 2)) }
    ensures value { IfOk result (λ found. (find : ℕ → ℕ → Option ℕ) → All (HoldLanes find losses.now (length losses.now.records)) sums.now → IfSome found (λ total. IsTotal losses.now total.items)) }
{
    for one in sums {
        if one.tell_total(losses.len()) {
            return Ok(Some(one.total(alloc, width)?));
        }
    }
    Ok(None)
}

/// Makes the sums of each set that wait those of all lanes: they are what the sums of another set come to, where these tell it. An error is
/// want of memory.
fn finish_sums(
    alloc: Global,
    width: usize,
    sums: &mut [SetSums],
    losses: &LossLanes,
) -> Result<(), AllocError>
    requires width { losses.now.rows + 2 ≡ width }
    requires some { 1 ≤ losses.now.rows }
    requires within { AreWithin losses.now.records }
    requires ready { All (AreReady losses.now) sums.old }
    ensures sets { OnOk result (map (λ one. one.set) sums.new ≡ map (λ one. one.set) sums.old) }
    ensures ready { OnOk result (All (AreReady losses.now) sums.new) }
    ensures done { OnOk result (All (λ one. one.waits ≡ false) sums.new) }
    ensures all { OnOk result ((find : ℕ → ℕ → Option ℕ) → All (HoldLanes find losses.now (length losses.now.records)) sums.old → All (HoldLanes find losses.now (length losses.now.records)) sums.new) }
{
    for at in 0..sums.len() {
        if sums[at].waits {
            let total = total_of_sets(alloc, width, sums, losses)?;
            sums[at].finish(total, losses);
        }
    }
    Ok(())
}

/// The records of the sums of sets to which all lanes were added, set by set. An error is want of memory.
fn records_of_sets(
    alloc: Global,
    portfolio: &Portfolio,
    samples: u32,
    perspective: Perspective,
    sums: &[SetSums],
    losses: &LossLanes,
) -> Result<Vec<SetRecords>, AllocError>
    requires samples { samples ≤ 1000 }
    requires rows { losses.now.rows ≡ samples + 1 }
    requires losses { All (IsLoss samples) losses.now.records }
    requires within { AreWithin losses.now.records }
    requires ready { All (AreReady losses.now) sums.now }
    requires done { All (λ one. one.waits ≡ false) sums.now }
    requires all { All (HoldLanes (summary_in perspective portfolio.now.rows) losses.now (length losses.now.records)) sums.now }
    ensures value { IfOk result (λ made. made.items ≡ map (set_records perspective portfolio.now.rows portfolio.now.need.rule losses.now.records) (map (λ one. one.set) sums.now)) }
    ensures good { IfOk result (λ made. All (λ one. All (IsSummary samples) one.records) made.items) }
{
    let mut made = Vec::with_capacity(alloc, sums.len())?;
    for one in sums {
        made.push(one.to_records(alloc, portfolio, samples, perspective, losses)?)?;
    }
    Ok(made)
}

/// The records of the summaries of each of some sets, which `summarise` makes for the records that lanes stand for, in a run with so
/// many samples. The lanes are gone through once for all sets, but for those of one summary to which every lane comes: its sums are those of
/// another set that has every lane, added, and only where no set has them are the lanes gone through again. An error is want of memory.
pub fn summarise_sets(
    alloc: Global,
    portfolio: &Portfolio,
    samples: u32,
    perspective: Perspective,
    sets: &[u32],
    losses: &LossLanes,
) -> Result<Vec<SetRecords>, AllocError>
    requires samples { samples ≤ 1000 }
    requires rows { losses.now.rows ≡ samples + 1 }
    requires records { All (IsLoss samples) losses.now.records }
    requires losses { AreWithin losses.now.records }
    ensures value { IfOk result (λ made. made.items ≡ map (set_records perspective portfolio.now.rows portfolio.now.need.rule losses.now.records) sets.now) }
    ensures good { IfOk result (λ made. All (λ one. All (IsSummary samples) one.records) made.items) }
{
    let mut sums = no_set_sums(alloc, portfolio, samples, perspective, sets, losses)?;
    add_lanes(&mut sums, losses);
    finish_sums(alloc, samples as usize + 3, &mut sums, losses)?;
    records_of_sets(alloc, portfolio, samples, perspective, &sums, losses)
}
