//! The summaries of a run whose records come one by one, as they stand in a stream.
//! The rules: docs/CALCULATION.md, "Summaries"; docs/STREAMS.md, "Records".
ghost use Rattle.std.specs.Prelude.{◌≡◌, ℕ, true, not, ◌≤◌, ◌∷◌, [], ◌++◌, List, IfOk, OnErr, OnOk};
ghost use Rattle.std.specs.List.{flat_map};
ghost use Rattle.kt_rec.specs.declared.perspective.Perspective.{Perspective};
ghost use Rattle.kt_stream.specs.Losses.{IsLoss};
ghost use Rattle.kt_stream.specs.Summary.{summary_bytes};
ghost use Rattle.kt_stream.specs.declared.entry.LossRecord.{LossRecord};
ghost use Rattle.kt_tables.specs.Portfolio.{PortfolioRows};
ghost use Rattle.kt_runs.specs.RunLosses.{event_of, goes_past};
ghost use Rattle.kt_sum.specs.RunSummaries.{AreOf, AreSummaries, HoldsRun, IsReady};
ghost use Rattle.kt_sum.specs.Summaries.{run_summaries};

use crate::rows::add_entry;
use crate::set_run::SetRun;
use crate::span::Span;
use crate::summary_sums::{FIRST, SummarySums, clear_rows, no_sums, put_rows};
use kt_money::Bytes;
use kt_rec::Perspective;
use kt_runs::{add_to_run, clear_run, no_run_sums, pair_room};
use kt_stream::LossRecord;
use kt_tables::{Portfolio, SetSummaries};
use std::alloc::{AllocError, Global};

/// What the records of a run come to in each summary of a set, record by record.
#[derive(Drop)]
pub struct RunSummaries<'a> {
    alloc: Global,
    portfolio: &'a Portfolio,
    perspective: Perspective,
    set: u32,
    /// The summaries of ids.
    found: SetSummaries<'a>,
    /// The summaries by rising number.
    summaries: Vec<u32>,
    /// The sums of each, in the same order.
    rows: Vec<SummarySums>,
    /// Room for the pairs of a record.
    room: Vec<u8>,
    /// The place of the sums to which the last record was added.
    near: usize,
    /// The sums of all records of the run, a place for each sidx of a stream from -2 up.
    totals: Vec<u64>,
}

impl<'a> RunSummaries<'a> {
    /// The summaries of a set of a portfolio, before the header of a stream. An error is want of memory.
    pub fn new(
        alloc: Global,
        portfolio: &'a Portfolio,
        perspective: Perspective,
        set: u32,
    ) -> Result<RunSummaries<'a>, AllocError>
        ensures are { IfOk result (λ it. AreSummaries it) }
        ensures of { IfOk result (λ it. AreOf portfolio.now perspective set it) }
        ensures unready { IfOk result (λ it. (samples : ℕ) → IsReady samples it → ⊥) }
    {
        let found = portfolio.set_summaries(perspective, set);
        let summaries = found.all(alloc)?;
        Ok(RunSummaries {
            alloc,
            portfolio,
            perspective,
            set,
            found,
            summaries,
            rows: Vec::new(alloc),
            room: Vec::new(alloc),
            near: 0,
            totals: Vec::new(alloc),
        })
    }

    /// Makes it ready for the first record of a run, in a stream with so many samples. An error is want of memory, and it is then as it
    /// was.
    pub fn begin(&mut self, samples: u32) -> Result<(), AllocError>
        requires are { AreSummaries self.old }
        ensures ready { OnOk result (IsReady samples self.new) }
        ensures holds { OnOk result ((portfolio : PortfolioRows) (perspective : Perspective) (set : ℕ) → AreOf portfolio perspective set self.old → HoldsRun portfolio perspective set samples [] self.new) }
        ensures unchanged { OnErr result (self.new ≡ self.old) }
    {
        let rows = no_sums(self.alloc, samples as usize + 3, &self.summaries)?;
        let room = pair_room(self.alloc, samples as usize + 3)?;
        let totals = no_run_sums(self.alloc, samples)?;
        self.rows = rows;
        self.room = room;
        self.totals = totals;
        Ok(())
    }

    /// Adds the losses of a record, and answers whether those of its run add to at most 10^16 cents at each sidx. Where they
    /// do not, the sums are no longer those of the run.
    pub fn add(&mut self, samples: u32, entry: &LossRecord) -> bool
        requires entry { IsLoss samples entry.now }
        requires ready { IsReady samples self.old }
        ensures exact { (portfolio : PortfolioRows) (perspective : Perspective) (set : ℕ) (records : List LossRecord) → HoldsRun portfolio perspective set samples records self.old → result ≡ not (goes_past records entry.now) }
        ensures kept { (portfolio : PortfolioRows) (perspective : Perspective) (set : ℕ) (records : List LossRecord) → HoldsRun portfolio perspective set samples records self.old → result ≡ true → HoldsRun portfolio perspective set samples (records ++ entry.now ∷ []) self.new }
        ensures ready { result ≡ true → IsReady samples self.new }
    {
        if !add_to_run(&mut self.totals, samples, entry) {
            return false;
        }
        let found = self.found.of(entry.id);
        let span = Span {
            least: FIRST,
            width: samples as usize + 3,
        };
        self.near = add_entry(
            &mut self.rows,
            &self.summaries,
            span,
            found,
            self.near,
            entry,
        );
        true
    }

    /// Appends the records of the summaries of a run of an event, as `summarise` makes them, and makes it ready for the first
    /// record of the next run. An error is want of memory; nothing is appended then, and the records of the run still stand.
    pub fn put(&mut self, samples: u32, event: u32, out: &mut Bytes) -> Result<(), AllocError>
        requires samples { samples ≤ 1000 }
        requires ready { IsReady samples self.old }
        ensures ready { OnOk result (IsReady samples self.new) }
        ensures text { OnOk result ((portfolio : PortfolioRows) (perspective : Perspective) (set : ℕ) (records : List LossRecord) → HoldsRun portfolio perspective set samples records self.old → event ≡ event_of records → out.new ≡ out.old ++ flat_map summary_bytes (run_summaries perspective portfolio.rows portfolio.need.rule set records)) }
        ensures holds { OnOk result ((portfolio : PortfolioRows) (perspective : Perspective) (set : ℕ) → AreOf portfolio perspective set self.old → HoldsRun portfolio perspective set samples [] self.new) }
        ensures unchanged { OnErr result (out.new ≡ out.old) }
        ensures kept { OnErr result ((portfolio : PortfolioRows) (perspective : Perspective) (set : ℕ) (records : List LossRecord) → HoldsRun portfolio perspective set samples records self.old → HoldsRun portfolio perspective set samples records self.new) }
        ensures kept_ready { OnErr result (IsReady samples self.new) }
    {
        let run = SetRun {
            portfolio: self.portfolio,
            perspective: self.perspective,
            set: self.set,
            event,
        };
        put_rows(&run, &self.rows, &mut self.room, out)?;
        clear_rows(&mut self.rows);
        clear_run(&mut self.totals, samples);
        Ok(())
    }
}
