//! The event loss table of a summary stream.
//! The rules: docs/COMMANDS.md, "eltcalc".
ghost use Rattle.std.specs.Prelude.{false};
ghost use Rattle.kt_ends.specs.Ending.{StreamToolEnds};
ghost use Rattle.kt_loop.specs.Running.{stream_uses};
ghost use Rattle.kt_periods.specs.EventLossTable.{elt_outcome};

use kt_elt::{elt_heading, elt_text};
use kt_ends::ToolStop;
use kt_loop::laws::records_give_their_rows;
use kt_loop::{Stage, run_stage};
use kt_money::Bytes;
use kt_out::{Sink, Source};
use kt_stream::{Head, Placed, SummaryReader, SummaryRecord};
use std::alloc::Global;

/// The event loss table of a summary stream, with or without the names of its columns.
#[derive(Drop)]
struct EventLosses {
    heading: bool,
}

impl Stage<SummaryRecord, ()> for EventLosses {
    ghost use Rattle.std.specs.Prelude.{◌≡◌, Bool};
    ghost use Rattle.kt_stream.specs.Summary.{summary_shape};
    ghost use Rattle.kt_periods.specs.EventLossTable.{elt_calculation};

    ghost State = { Bool };

    ghost calculation = { elt_calculation };

    ghost is_at = { λ heading stage _. stage.heading ≡ heading };

    ghost is_ready = { λ _ _ _. Unit {0} };

    ghost shape = { λ _. summary_shape };

    ghost inputs = { λ others _. others };

    fn open(&mut self, _beside: &mut (), _head: Head, out: &mut Bytes) -> Result<(), ToolStop> {
        if self.heading {
            out.append(elt_heading())?;
        }
        Ok(())
    }

    fn take(
        &mut self,
        _beside: &mut (),
        head: Head,
        placed: &Placed<SummaryRecord>,
        out: &mut Bytes,
    ) -> Result<(), ToolStop> {
        elt_text(out, head.samples, &placed.entry)?;
        Ok(())
    }

    fn end(&mut self, _beside: &mut (), _head: Head, _out: &mut Bytes) -> Result<(), ToolStop> {
        Ok(())
    }
}

/// Reads a summary stream and writes its event loss table, with or without the names of its columns. An error is what
/// refuses the stream, a fault of the source or of the sink, or want of memory: a refused stream has written the output
/// of what came before the refused place, and any other error leaves some front of the output.
pub fn write_event_losses<S: Source, K: Sink>(
    alloc: Global,
    heading: bool,
    source: &mut S,
    sink: &mut K,
) -> Result<(), ToolStop>
    ensures { StreamToolEnds (stream_uses false) (λ _ bytes. elt_outcome heading bytes) (S.state source.old) (S.state source.new) (K.state sink.old) (K.state sink.new) result }
{
    records_give_their_rows::<Head, SummaryRecord, bool>();
    let mut reader = SummaryReader::new(alloc);
    let mut stage = EventLosses { heading };
    run_stage(alloc, &mut reader, &mut stage, &mut (), source, sink)
}
