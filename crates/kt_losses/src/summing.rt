//! The stage that makes the summaries of a stream of losses: judges each record, and adds it to the sums of its summary.
//! The rules: docs/STREAMS.md, "Tools over losses"; docs/COMMANDS.md, "summarycalc".
ghost use Rattle.std.specs.Prelude.{◌≡◌, ◌++◌, ◌∷◌, [], ◌≤◌, nat_eq, nat_lt, ◌&&◌, List, IfErr, OnErr, OnOk};
ghost use Rattle.std.specs.List.{flat_map};
ghost use Rattle.kt_ends.specs.declared.tool_stop.ToolStop.TheVariants.{NoMemory};
ghost use Rattle.kt_loop.specs.Counts.{Consults};
ghost use Rattle.kt_loop.specs.RunSteps.{JudgesBy};
ghost use Rattle.kt_loop.specs.Runs.{bare};
ghost use Rattle.kt_losses.specs.Judged.{loss_refusal};
ghost use Rattle.kt_losses.specs.Known.{has_id};
ghost use Rattle.kt_losses.specs.Summed.{GoesOn, StandsAt};
ghost use Rattle.kt_losses.specs.Tables.{perspective_of};
ghost use Rattle.kt_out.specs.InputFiles.{InputsState};
ghost use Rattle.kt_runs.specs.RunLosses.{goes_past};
ghost use Rattle.kt_stream.specs.Losses.{IsLoss};
ghost use Rattle.kt_stream.specs.Summary.{summary_bytes};
ghost use Rattle.kt_stream.specs.declared.entry.LossRecord.{LossRecord};
ghost use Rattle.kt_stream.specs.declared.entry.Placed.{Placed};
ghost use Rattle.kt_sum.specs.RunSummaries.{IsReady};
ghost use Rattle.kt_sum.specs.Summaries.{run_summaries};
ghost use Rattle.kt_tables.specs.Portfolio.{PortfolioRows};

use crate::judging::{ID_PLACE, check_stop};
use crate::known::{KnownId, is_among};
use kt_ends::{Refusal, ToolStop};
use kt_index::ByKey;
use kt_loop::Stage;
use kt_money::Bytes;
use kt_stream::{Head, LossRecord, Placed, StreamKind, put_head};
use kt_sum::RunSummaries;
use kt_tables::Portfolio;
use std::alloc::Global;

/// A summary set, of items or of outputs.
#[derive(Clone, Copy, Drop)]
pub struct SummarySet {
    /// Whether it is one of items, else of outputs.
    pub(crate) items: bool,
    /// Its number, from 1 to 9.
    pub(crate) set: u32,
}

/// The run that is open, if there is one: its event, and the id of its last record.
#[derive(Clone, Copy, Drop)]
pub struct LastLoss {
    pub(crate) is_open: bool,
    pub(crate) event: u32,
    pub(crate) id: u32,
}

/// The summaries of a set, with the sums of the run that is open.
#[derive(Drop)]
pub(crate) struct SummedLosses<'a> {
    pub(crate) alloc: Global,
    pub(crate) portfolio: &'a Portfolio,
    pub(crate) ids: &'a ByKey<KnownId>,
    pub(crate) of: SummarySet,
    pub(crate) last: LastLoss,
    pub(crate) summaries: RunSummaries<'a>,
}

/// Whether a record goes on the open run.
fn joins_run(last: LastLoss, entry: &LossRecord) -> bool
    ensures { result ≡ (last.is_open && (nat_eq last.event entry.now.event && nat_lt last.id entry.now.id)) }
{
    last.is_open && last.event == entry.event && last.id < entry.id
}

/// Judges a record that goes on the open run or opens one, and adds its losses.
fn judge(
    ids: &ByKey<KnownId>,
    last: &mut LastLoss,
    summaries: &mut RunSummaries<'_>,
    head: Head,
    placed: &Placed<LossRecord>,
) -> Result<(), ToolStop>
    requires good { IsLoss head.samples placed.now.entry }
    requires within { placed.now.at ≤ 1099511627776 }
    requires ready { IsReady head.samples summaries.old }
    ensures judged { (portfolio : PortfolioRows) (of : SummarySet) (run : List (Placed LossRecord)) → StandsAt portfolio of run last.old summaries.old → GoesOn run placed.now → JudgesBy (loss_refusal (has_id ids.now placed.now.entry.id) (goes_past (bare run) placed.now.entry) placed.now.at) (StandsAt portfolio of (run ++ placed.now ∷ []) last.new summaries.new) result }
    ensures ready { OnOk result (IsReady head.samples summaries.new) }
    ensures counted { (inputs : InputsState) → Consults inputs inputs result }
{
    if !is_among(ids, placed.entry.id) {
        let byte = placed.at + ID_PLACE;
        return Err(ToolStop::Refused(Refusal::UnknownId { byte }));
    }
    if !summaries.add(head.samples, &placed.entry) {
        let byte = placed.at;
        return Err(ToolStop::Refused(Refusal::LossSum { byte }));
    }
    *last = LastLoss {
        is_open: true,
        event: placed.entry.event,
        id: placed.entry.id,
    };
    Ok(())
}

/// Closes the open run, if there is one: appends its summaries. An error is want of memory, and nothing is appended then.
fn close(
    last: &mut LastLoss,
    summaries: &mut RunSummaries<'_>,
    head: Head,
    out: &mut Bytes,
) -> Result<(), ToolStop>
    requires samples { head.samples ≤ 1000 }
    requires ready { IsReady head.samples summaries.old }
    ensures closed { OnOk result ((portfolio : PortfolioRows) (of : SummarySet) (run : List (Placed LossRecord)) → StandsAt portfolio of run last.old summaries.old → (out.new ≡ out.old ++ flat_map summary_bytes (run_summaries (perspective_of of.items) portfolio.rows portfolio.need.rule of.set (bare run))) × StandsAt portfolio of [] last.new summaries.new) }
    ensures ready { OnOk result (IsReady head.samples summaries.new) }
    ensures memory { IfErr result (λ why. why ≡ NoMemory) }
    ensures unchanged { OnErr result (out.new ≡ out.old) }
{
    if !last.is_open {
        return Ok(());
    }
    summaries.put(head.samples, last.event, out)?;
    last.is_open = false;
    Ok(())
}

impl<'a> Stage<LossRecord, ()> for SummedLosses<'a> {
    ghost use Rattle.std.specs.Prelude.{◌≡◌, ℕ};
    ghost use Rattle.kt_loop.specs.ByRun.{OpenRun, by_run};
    ghost use Rattle.kt_loop.specs.Runs.{loss_key};
    ghost use Rattle.kt_losses.specs.Judged.{is_known, judged_runs, losses_kind};
    ghost use Rattle.kt_losses.specs.Known.{has_id};
    ghost use Rattle.kt_losses.specs.Summed.{IsReadyAt, StandsAt, table_of_set};
    ghost use Rattle.kt_losses.specs.declared.summing.SummarySet.{SummarySet};
    ghost use Rattle.kt_stream.specs.Losses.{loss_shape};
    ghost use Rattle.kt_stream.specs.declared.entry.LossRecord.{LossRecord};
    ghost use Rattle.kt_tables.specs.Portfolio.{PortfolioRows};

    ghost State = { OpenRun (SummarySet × PortfolioRows) LossRecord };

    ghost calculation = { by_run loss_key (judged_runs table_of_set) };

    ghost is_at = { λ state it _. (state.kept ≡ (it.of, it.portfolio.now)) × StandsAt it.portfolio.now it.of state.run it.last it.summaries };

    ghost is_ready = { λ header it _. IsReadyAt header it.last it.summaries × ((id : ℕ) → has_id it.ids.now id ≡ is_known it.of.items it.portfolio.now.rows id) };

    ghost shape = { λ it. loss_shape (losses_kind it.of.items) };

    ghost inputs = { λ others _. others };

    fn open(&mut self, _beside: &mut (), head: Head, out: &mut Bytes) -> Result<(), ToolStop> {
        if let Err(stop) = self.portfolio.samples_fit(head.samples) {
            return Err(check_stop(self.alloc, stop));
        }
        self.summaries.begin(head.samples)?;
        let heading = Head {
            samples: head.samples,
            set: self.of.set,
        };
        put_head(out, StreamKind::Summary, heading)?;
        Ok(())
    }

    fn take(
        &mut self,
        _beside: &mut (),
        head: Head,
        placed: &Placed<LossRecord>,
        out: &mut Bytes,
    ) -> Result<(), ToolStop> {
        if joins_run(self.last, &placed.entry) {
            return judge(self.ids, &mut self.last, &mut self.summaries, head, placed);
        }
        if let Err(why) = close(&mut self.last, &mut self.summaries, head, out) {
            return Err(why);
        }
        judge(self.ids, &mut self.last, &mut self.summaries, head, placed)
    }

    fn end(&mut self, _beside: &mut (), head: Head, out: &mut Bytes) -> Result<(), ToolStop> {
        close(&mut self.last, &mut self.summaries, head, out)
    }
}
