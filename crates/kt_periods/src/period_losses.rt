//! The period loss table of a summary stream.
//! The rules: docs/COMMANDS.md, "pltcalc".
ghost use Rattle.std.specs.Prelude.{true};
ghost use Rattle.kt_ends.specs.Ending.{StreamToolEnds};
ghost use Rattle.kt_loop.specs.Running.{stream_uses};
ghost use Rattle.kt_periods.specs.PeriodLossTable.{plt_outcome};

use kt_elt::{plt_heading, plt_record_text};
use kt_ends::ToolStop;
use kt_loop::laws::records_give_their_rows;
use kt_loop::{Stage, run_stage};
use kt_money::Bytes;
use kt_out::{Sink, Source};
use kt_stream::{Head, Placed, SummaryReader, SummaryRecord};
use kt_tables::Portfolio;
use std::alloc::Global;

/// The period loss table of a summary stream, with or without the names of its columns.
#[derive(Drop)]
struct PeriodRows<'a> {
    heading: bool,
    portfolio: &'a Portfolio,
}

impl<'a> Stage<SummaryRecord, ()> for PeriodRows<'a> {
    ghost use Rattle.std.specs.Prelude.{◌≡◌};
    ghost use Rattle.kt_stream.specs.Summary.{summary_shape};
    ghost use Rattle.kt_periods.specs.PeriodLossTable.{HeadingAndPortfolio, plt_calculation};

    ghost State = { HeadingAndPortfolio };

    ghost calculation = { plt_calculation };

    ghost is_at = { λ made stage _. (stage.heading ≡ made.0) × (stage.portfolio.now ≡ made.1) };

    ghost is_ready = { λ _ _ _. Unit {0} };

    ghost shape = { λ _. summary_shape };

    ghost inputs = { λ others _. others };

    fn open(&mut self, _beside: &mut (), _head: Head, out: &mut Bytes) -> Result<(), ToolStop> {
        if self.heading {
            out.append(plt_heading())?;
        }
        Ok(())
    }

    fn take(
        &mut self,
        _beside: &mut (),
        head: Head,
        placed: &Placed<SummaryRecord>,
        out: &mut Bytes,
    ) -> Result<(), ToolStop> {
        let occurrences = self.portfolio.occurrences(placed.entry.event);
        plt_record_text(out, head.samples, &placed.entry, occurrences)?;
        Ok(())
    }

    fn end(&mut self, _beside: &mut (), _head: Head, _out: &mut Bytes) -> Result<(), ToolStop> {
        Ok(())
    }
}

/// Reads a summary stream and writes its period loss table by the occurrences of a portfolio, with or without the names of its
/// columns. An error is what refuses the stream, a fault of the source or of the sink, or want of memory: a refused
/// stream has written the output of what came before the refused place, and any other error leaves some front of the
/// output.
pub fn write_period_losses<S: Source, K: Sink>(
    alloc: Global,
    heading: bool,
    portfolio: &Portfolio,
    source: &mut S,
    sink: &mut K,
) -> Result<(), ToolStop>
    ensures { StreamToolEnds (stream_uses true) (λ _ bytes. plt_outcome heading portfolio.now bytes) (S.state source.old) (S.state source.new) (K.state sink.old) (K.state sink.new) result }
{
    records_give_their_rows::<Head, SummaryRecord, (bool, Portfolio)>();
    let mut reader = SummaryReader::new(alloc);
    let mut stage = PeriodRows { heading, portfolio };
    run_stage(alloc, &mut reader, &mut stage, &mut (), source, sink)
}
