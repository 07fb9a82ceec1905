//! The stage over losses: judges each record, and hands each closed run to its tool.
//! The rules: docs/STREAMS.md, "Tools over losses".
ghost use Rattle.std.specs.Prelude.{◌≡◌, ℕ, nat_eq, true};
ghost use Rattle.kt_ends.specs.Ending.{StreamToolEnds};
ghost use Rattle.kt_loop.specs.Running.{stream_uses};
ghost use Rattle.kt_losses.specs.Judged.{judged_outcome, losses_kind};
ghost use Rattle.kt_losses.specs.Standing.{IsCheckStop};

use crate::known::{KnownId, is_among, known_ids};
use crate::table::LossTool;
use kt_checks::CheckStop;
use kt_ends::{Refusal, ToolStop};
use kt_index::ByKey;
use kt_load::file_name;
use kt_loop::laws::runs_give_their_text;
use kt_loop::{RunStage, keep_memory, run_by_run};
use kt_money::Bytes;
use kt_out::{Sink, Source};
use kt_runs::{add_to_run, clear_run, no_run_sums};
use kt_stream::{Head, LossReader, LossRecord, Placed, StreamKind};
use kt_tables::Portfolio;
use std::alloc::Global;

/// The place of the id in a record, in bytes.
pub(crate) const ID_PLACE: u64 = 4;

/// The kind of the stream.
pub(crate) fn losses_kind(items: bool) -> StreamKind
    ensures { result ≡ losses_kind items }
{
    if items {
        StreamKind::Gul
    } else {
        StreamKind::Loss
    }
}

/// The stop for tables that a check refuses.
pub(crate) fn check_stop(alloc: Global, stop: CheckStop) -> ToolStop
    ensures { IsCheckStop stop result }
{
    match stop {
        CheckStop::Check { number, table, row } => match file_name(alloc, table) {
            Ok(name) => ToolStop::Refused(Refusal::Check { number, name, row }),
            Err(_) => ToolStop::NoMemory,
        },
        CheckStop::OutOfMemory => ToolStop::NoMemory,
    }
}

/// A tool over the losses of a portfolio, with the sums of the run that is open.
#[derive(Drop)]
struct JudgedLosses<'a, T> {
    alloc: Global,
    portfolio: &'a Portfolio,
    ids: &'a ByKey<KnownId>,
    sums: Vec<u64>,
    tool: T,
}

impl<'a, T: LossTool> RunStage<LossRecord, ()> for JudgedLosses<'a, T> {
    ghost use Rattle.std.specs.Prelude.{◌≡◌, ℕ};
    ghost use Rattle.kt_losses.specs.Judged.{is_known, judged_runs, losses_kind};
    ghost use Rattle.kt_losses.specs.Known.{has_id};
    ghost use Rattle.kt_losses.specs.Standing.{AreKnown, HoldsSums};
    ghost use Rattle.kt_stream.specs.Losses.{loss_shape};
    ghost use Rattle.kt_tables.specs.Portfolio.{PortfolioRows};

    ghost Kept = { T × PortfolioRows };

    ghost runs = { judged_runs T.table };

    ghost is_at = { λ made stage _. (stage.tool ≡ made.0) × (stage.portfolio.now ≡ made.1) };

    ghost is_ready = { λ header run stage _. HoldsSums header run stage.sums.items × (((id : ℕ) → has_id stage.ids.now id ≡ is_known (T.table stage.tool).items stage.portfolio.now.rows id) × (T.serves stage.portfolio.now stage.tool × AreKnown (T.table stage.tool).items stage.portfolio.now.rows run)) };

    ghost shape = { λ stage. loss_shape (losses_kind (T.table stage.tool).items) };

    ghost inputs = { λ others _. others };

    fn open(&mut self, _beside: &mut (), head: Head, out: &mut Bytes) -> Result<(), ToolStop> {
        if let Err(stop) = self.portfolio.samples_fit(head.samples) {
            return Err(check_stop(self.alloc, stop));
        }
        self.sums = no_run_sums(self.alloc, head.samples)?;
        self.tool.put_heading(head, out)?;
        Ok(())
    }

    fn judge(
        &mut self,
        _beside: &mut (),
        head: Head,
        _run: &[Placed<LossRecord>],
        placed: &Placed<LossRecord>,
    ) -> Result<(), ToolStop> {
        if !is_among(self.ids, placed.entry.id) {
            let byte = placed.at + ID_PLACE;
            return Err(ToolStop::Refused(Refusal::UnknownId { byte }));
        }
        if !add_to_run(&mut self.sums, head.samples, &placed.entry) {
            let byte = placed.at;
            return Err(ToolStop::Refused(Refusal::LossSum { byte }));
        }
        Ok(())
    }

    fn close(
        &mut self,
        _beside: &mut (),
        head: Head,
        run: &[Placed<LossRecord>],
        out: &mut Bytes,
    ) -> Result<(), ToolStop> {
        self.tool.put_run(self.portfolio, head, run, out)?;
        clear_run(&mut self.sums, head.samples);
        Ok(())
    }
}

/// Reads a stream of losses and writes what a tool makes of it by a portfolio: what stands at the header, and then what each
/// closed run gives. At the header the checks by the stream's number of samples come first. A record is refused whose id is none
/// of an item, or of an output, or that takes the losses of a sidx in its run past 10^16 cents.
pub(crate) fn write_losses<T: LossTool + Drop, S: Source, K: Sink>(
    alloc: Global,
    portfolio: &Portfolio,
    tool: T,
    source: &mut S,
    sink: &mut K,
) -> Result<(), ToolStop>
    requires { T.serves portfolio.now tool }
    ensures { StreamToolEnds (stream_uses true) (λ _ bytes. judged_outcome (T.table tool) portfolio.now bytes) (S.state source.old) (S.state source.new) (K.state sink.old) (K.state sink.new) result }
{
    runs_give_their_text::<Head, LossRecord, (T, Portfolio)>();
    keep_memory(alloc);
    let ids = match known_ids(alloc, tool.of_items(), portfolio.tables()) {
        Ok(ids) => ids,
        Err(_) => return Err(ToolStop::NoMemory),
    };
    let mut reader = LossReader::new(alloc, losses_kind(tool.of_items()));
    let stage = JudgedLosses {
        alloc,
        portfolio,
        ids: &ids,
        sums: Vec::new(alloc),
        tool,
    };
    run_by_run(alloc, &mut reader, stage, &mut (), source, sink)
}
