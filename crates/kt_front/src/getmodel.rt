//! The tool that makes the damage distributions of the events of a stream.
//! The rules: docs/COMMANDS.md, "getmodel".
ghost use Rattle.std.specs.Prelude.{◌≡◌, true, IfErr};
ghost use Rattle.kt_ends.specs.Ending.{ToolEnds};
ghost use Rattle.kt_ends.specs.Stops.{end_status};
ghost use Rattle.kt_ends.specs.World.{world};
ghost use Rattle.kt_keys.specs.Refusals.{is_loaded};
ghost use Rattle.kt_loop.specs.Steps.{StepsBy};
ghost use Rattle.kt_out.specs.OutputFiles.{OutputsState};
ghost use Rattle.kt_rec.specs.declared.table.Table.TheVariants as table;
ghost use Rattle.kt_front.specs.ModelOutcome.{ModelTables, model_outcome, rows_step};
ghost use Rattle.kt_front.specs.ModelStage.{IsModelReady, IsRowStop, model_stop as stop_of_model};
ghost use Rattle.kt_loop.specs.Running.{stream_uses};

use crate::stops::load_stop;
use kt_ends::{Refusal, ToolStop};
use kt_load::foot_rows;
use kt_loop::{Stage, run_stage};
use kt_model::{ModelStop, Scratch, put_distributions};
use kt_money::Bytes;
use kt_out::{Inputs, Sink, Source};
use kt_rec::FootRow;
use kt_stream::{EventId, EventReader, Head, Placed, StreamKind, put_head};
use kt_tables::Portfolio;
use std::alloc::Global;

/// How the tool ends where the distributions of an event were not made.
fn model_stop(event: u32, stop: ModelStop) -> ToolStop
    ensures { result ≡ stop_of_model event stop }
{
    match stop {
        ModelStop::Row { row, cause } => ToolStop::Refused(Refusal::Row { event, row, cause }),
        ModelStop::OutOfMemory => ToolStop::NoMemory,
    }
}

/// Appends the distributions of an event whose footprint has these rows, unless one of them is refused.
fn put_event(
    alloc: Global,
    portfolio: &Portfolio,
    event: u32,
    rows: &[FootRow],
    scratch: &mut Scratch,
    out: &mut Bytes,
) -> Result<(), ToolStop>
    requires loaded { is_loaded portfolio.now.need 0 table.DamageBinDict ≡ true }
    ensures step { (made : ModelTables) → portfolio.now.rows ≡ made.rows → StepsBy (rows_step made event rows.now) (λ next. next ≡ made) out.old out.new result }
    ensures stops { IfErr result IsRowStop }
{
    match put_distributions(alloc, portfolio, event, rows, scratch, out) {
        Ok(()) => Ok(()),
        Err(stop) => Err(model_stop(event, stop)),
    }
}

/// The damage distributions of the events of a stream, whose rows the input files have.
#[derive(Drop)]
struct Distributions<'a> {
    alloc: Global,
    portfolio: &'a Portfolio,
    scratch: Scratch,
}

impl<'a, I: Inputs> Stage<EventId, I> for Distributions<'a> {
    ghost use Rattle.std.specs.Prelude.{◌≡◌};
    ghost use Rattle.kt_stream.specs.EventIds.{event_shape};
    ghost use Rattle.kt_front.specs.ModelOutcome.{ModelTables, model_calculation};
    ghost use Rattle.kt_front.specs.ModelStage.{IsModelReady, HoldsFootprint};

    ghost State = { ModelTables };

    ghost calculation = { model_calculation };

    ghost is_at = { λ made stage inputs. (stage.portfolio.now.rows ≡ made.rows) × HoldsFootprint (I.state inputs).held made.footprint };

    ghost is_ready = { λ _ stage inputs. IsModelReady stage.portfolio.now (I.state inputs).held };

    ghost shape = { λ _. event_shape };

    ghost inputs = { λ _ inputs. I.state inputs };

    fn open(&mut self, _inputs: &mut I, _head: Head, out: &mut Bytes) -> Result<(), ToolStop> {
        let head = Head { samples: 0, set: 0 };
        put_head(out, StreamKind::Cdf, head)?;
        Ok(())
    }

    fn take(
        &mut self,
        inputs: &mut I,
        _head: Head,
        placed: &Placed<EventId>,
        out: &mut Bytes,
    ) -> Result<(), ToolStop> {
        let event = placed.entry.event;
        match foot_rows(self.alloc, inputs, self.portfolio, event) {
            Ok(rows) => put_event(
                self.alloc,
                self.portfolio,
                event,
                rows.as_slice(),
                &mut self.scratch,
                out,
            ),
            Err(stop) => Err(load_stop(stop)),
        }
    }

    fn end(&mut self, _inputs: &mut I, _head: Head, _out: &mut Bytes) -> Result<(), ToolStop> {
        Ok(())
    }
}

/// Reads the ids of events and writes their damage distributions by a portfolio and the footprint's file. An error is
/// the first refused id or footprint row, a fault of the source, of the footprint's file or of the sink, or want of
/// memory: where it is refused the header and what all ids before it give are written, and any other error leaves some
/// front of the output.
pub fn write_distributions<I: Inputs, S: Source, K: Sink>(
    alloc: Global,
    portfolio: &Portfolio,
    inputs: &mut I,
    source: &mut S,
    sink: &mut K,
) -> Result<(), ToolStop>
    requires ready { IsModelReady portfolio.now (I.state inputs.old).held }
    // The output files are none of its objects.
    ensures { (outputs : OutputsState) → ToolEnds (stream_uses true) (λ files bytes. model_outcome files portfolio.now.rows bytes) (world (I.state inputs.old) outputs (S.state source.old) (K.state sink.old)) (world (I.state inputs.new) outputs (S.state source.new) (K.state sink.new)) (end_status result) }
{
    let mut reader = EventReader::new(alloc);
    let mut stage = Distributions {
        alloc,
        portfolio,
        scratch: Scratch::new(alloc),
    };
    run_stage(alloc, &mut reader, &mut stage, inputs, source, sink)
}
