//! What lanes come to in the summaries of a set.
//! The rule: docs/CALCULATION.md, "Summaries".
ghost use Rattle.std.specs.Prelude.{◌≡◌, ℕ, true, false, ◌+◌, ◌<◌, ◌≤◌, length, All, Option, IfOk};
ghost use Rattle.std.specs.List.{list_all};
ghost use Rattle.std.specs.Option.{IfSome, is_some};
ghost use Rattle.kt_runs.specs.RunLosses.{AreWithin};
ghost use Rattle.kt_runs.specs.LaneRun.{LaneRun};
ghost use Rattle.kt_runs.specs.Records.{ids_of};
ghost use Rattle.kt_stream.specs.Losses.{IsLoss};
ghost use Rattle.kt_stream.specs.Summary.{IsSummary};
ghost use Rattle.kt_sum.specs.RunSummaries.{IsReadyRow};
ghost use Rattle.kt_sum.specs.SetSums.{AreReady, HoldLanes, set_records};
ghost use Rattle.kt_sum.specs.Totals.{IsTotal};
ghost use Rattle.kt_tables.specs.Lookups.{summary_in};

use crate::rows::add_lane_entry;
use crate::run::{found_of, made_of, rising_of};
use crate::set_records::SetRecords;
use crate::set_run::SetRun;
use crate::span::Span;
use crate::summary_sums::{FIRST, SummarySums, no_sums};
use crate::totals::total_of;
use kt_rec::Perspective;
use kt_runs::LossLanes;
use kt_stream::Records;
use kt_tables::Portfolio;
use std::alloc::{AllocError, Global};

/// Whether a summary was found for each id.
fn finds_all(found: &[Option<u32>]) -> bool
    ensures { result ≡ list_all is_some found.now }
{
    found.iter().all(|one| one.is_some())
}

/// What lanes come to in the summaries of a set.
#[derive(Drop)]
pub(crate) struct SetSums {
    /// The summary set.
    pub(crate) set: u32,
    /// The summary that was found for the id of each lane, if one was.
    found: Vec<Option<u32>>,
    /// The summaries by rising number.
    summaries: Vec<u32>,
    /// The sums of each, in the same order, which begin at sidx -2.
    rows: Vec<SummarySums>,
    /// The place of the sums to which the last lane was added.
    near: usize,
    /// Whether a summary was found for each lane.
    finds_all: bool,
    /// Whether the sums are still 0 and wait for those of the other sets, as those of a set's only summary do to which every lane comes.
    pub(crate) waits: bool,
}

impl SetSums {
    /// Sums of so many places for each summary that a set has for one of the ids of lanes, all 0. An error is want of memory.
    pub(crate) fn new(
        alloc: Global,
        portfolio: &Portfolio,
        perspective: Perspective,
        set: u32,
        width: usize,
        ids: &[u32],
    ) -> Result<SetSums, AllocError>
        ensures set { IfOk result (λ sums. sums.set ≡ set) }
        ensures ready { IfOk result (λ sums. (losses : LaneRun) → losses.rows + 2 ≡ width → ids.now ≡ ids_of losses.records → AreReady losses sums) }
        ensures none { IfOk result (λ sums. (losses : LaneRun) → losses.rows + 2 ≡ width → ids.now ≡ ids_of losses.records → HoldLanes (summary_in perspective portfolio.now.rows) losses 0 sums) }
    {
        let found = found_of(alloc, &portfolio.set_summaries(perspective, set), ids)?;
        let summaries = rising_of(alloc, &found)?;
        let rows = no_sums(alloc, width, &summaries)?;
        let finds_all = finds_all(&found);
        let waits = finds_all && summaries.len() == 1;
        Ok(SetSums {
            set,
            found,
            summaries,
            rows,
            near: 0,
            finds_all,
            waits,
        })
    }

    /// Adds the deviation and the losses of the lane in a place to the sums of the summary that was found for its id, if one was; sums that
    /// wait stay as they are.
    pub(crate) fn add(&mut self, losses: &LossLanes, place: usize)
        requires place { place < length losses.now.records }
        requires some { 1 ≤ losses.now.rows }
        requires within { AreWithin losses.now.records }
        requires ready { AreReady losses.now self.old }
        ensures set { self.new.set ≡ self.old.set }
        ensures waits { self.new.waits ≡ self.old.waits }
        ensures ready { AreReady losses.now self.new }
        ensures more { (find : ℕ → ℕ → Option ℕ) → HoldLanes find losses.now place self.old → HoldLanes find losses.now (place + 1) self.new }
    {
        if self.waits {
            return;
        }
        self.near = add_lane_entry(
            &mut self.rows,
            &self.summaries,
            self.found[place],
            self.near,
            losses.deviation(place),
            losses.lane(place),
        );
    }

    /// Adds all lanes to sums that wait.
    fn add_all(&mut self, losses: &LossLanes)
        requires some { 1 ≤ losses.now.rows }
        requires within { AreWithin losses.now.records }
        requires ready { AreReady losses.now self.old }
        requires waits { self.old.waits ≡ true }
        ensures set { self.new.set ≡ self.old.set }
        ensures done { self.new.waits ≡ false }
        ensures ready { AreReady losses.now self.new }
        ensures all { (find : ℕ → ℕ → Option ℕ) → HoldLanes find losses.now (length losses.now.records) self.old → HoldLanes find losses.now (length losses.now.records) self.new }
    {
        self.waits = false;
        for place in 0..losses.len() {
            self.add(losses, place);
        }
    }

    /// Puts what all lanes come to into sums that wait.
    fn put_total(&mut self, total: Vec<u64>)
        requires some { 1 ≤ length self.old.rows.items }
        ensures set { self.new.set ≡ self.old.set }
        ensures done { self.new.waits ≡ false }
        ensures ready { (losses : LaneRun) → self.old.waits ≡ true → length total.items ≡ losses.rows + 2 → AreReady losses self.old → AreReady losses self.new }
        ensures all { (find : ℕ → ℕ → Option ℕ) (losses : LaneRun) → self.old.waits ≡ true → IsTotal losses total.items → AreReady losses self.old → HoldLanes find losses (length losses.records) self.old → HoldLanes find losses (length losses.records) self.new }
    {
        let row = &mut self.rows[0];
        row.is_used = true;
        row.sums = total;
        self.waits = false;
    }

    /// Makes sums that wait those of all lanes: from what these come to, sidx by sidx from -2 up, where that is known, else lane by lane.
    pub(crate) fn finish(&mut self, total: Option<Vec<u64>>, losses: &LossLanes)
        requires some { 1 ≤ losses.now.rows }
        requires within { AreWithin losses.now.records }
        requires ready { AreReady losses.now self.old }
        requires waits { self.old.waits ≡ true }
        requires width { IfSome total (λ sums. length sums.items ≡ losses.now.rows + 2) }
        ensures set { self.new.set ≡ self.old.set }
        ensures done { self.new.waits ≡ false }
        ensures ready { AreReady losses.now self.new }
        ensures all { (find : ℕ → ℕ → Option ℕ) → IfSome total (λ sums. IsTotal losses.now sums.items) → HoldLanes find losses.now (length losses.now.records) self.old → HoldLanes find losses.now (length losses.now.records) self.new }
    {
        match total {
            Some(total) => self.put_total(total),
            None => self.add_all(losses),
        }
    }

    /// Whether the sums tell what all of so many lanes come to by fewer additions than the lanes.
    pub(crate) fn tell_total(&self, lanes: usize) -> bool
        ensures done { result ≡ true → self.now.waits ≡ false }
        ensures all { result ≡ true → self.now.finds_all ≡ true }
    {
        !self.waits && self.finds_all && self.rows.len() < lanes
    }

    /// What all lanes come to, sidx by sidx from -2 up, in so many places, where each was added. An error is want of memory.
    pub(crate) fn total(&self, alloc: Global, width: usize) -> Result<Vec<u64>, AllocError>
        requires done { self.now.waits ≡ false }
        requires all { self.now.finds_all ≡ true }
        requires rows { All (IsReadyRow width) self.now.rows.items }
        ensures width { IfOk result (λ total. length total.items ≡ width) }
        ensures value { IfOk result (λ total. (find : ℕ → ℕ → Option ℕ) (losses : LaneRun) → losses.rows + 2 ≡ width → AreWithin losses.records → AreReady losses self.now → HoldLanes find losses (length losses.records) self.now → IsTotal losses total.items) }
    {
        total_of(alloc, width, &self.rows)
    }

    /// The records of the summaries, in a run with so many samples, where all lanes were added. An error is want of memory.
    pub(crate) fn to_records(
        &self,
        alloc: Global,
        portfolio: &Portfolio,
        samples: u32,
        perspective: Perspective,
        losses: &LossLanes,
    ) -> Result<SetRecords, AllocError>
        requires samples { samples ≤ 1000 }
        requires rows { losses.now.rows ≡ samples + 1 }
        requires losses { All (IsLoss samples) losses.now.records }
        requires within { AreWithin losses.now.records }
        requires ready { AreReady losses.now self.now }
        requires done { self.now.waits ≡ false }
        requires all { HoldLanes (summary_in perspective portfolio.now.rows) losses.now (length losses.now.records) self.now }
        ensures value { IfOk result (λ made. made ≡ set_records perspective portfolio.now.rows portfolio.now.need.rule losses.now.records self.now.set) }
        ensures good { IfOk result (λ made. All (IsSummary samples) made.records) }
    {
        portfolio.keeps_summaries();
        let run = SetRun {
            portfolio,
            perspective,
            set: self.set,
            event: losses.first_event(),
        };
        let span = Span {
            least: FIRST,
            width: samples as usize + 3,
        };
        let made = made_of(alloc, &run, span, &self.rows)?;
        Ok(SetRecords {
            set: self.set,
            records: Records::from_vec(made),
        })
    }
}
