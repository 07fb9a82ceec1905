//! The summaries of a stream of losses.
//! The rules: docs/COMMANDS.md, "summarycalc".
ghost use Rattle.std.specs.Prelude.{◌≡◌, true};
ghost use Rattle.kt_ends.specs.Ending.{StreamToolEnds};
ghost use Rattle.kt_loop.specs.Running.{stream_uses};
ghost use Rattle.kt_losses.specs.Judged.{judged_outcome};
ghost use Rattle.kt_losses.specs.Tables.{perspective_of, summary_table};

use crate::judging::losses_kind;
use crate::known::known_ids;
use crate::summing::{LastLoss, SummarySet, SummedLosses};
use kt_ends::ToolStop;
use kt_loop::laws::runs_give_their_text;
use kt_loop::run_stage;
use kt_out::{Sink, Source};
use kt_rec::Perspective;
use kt_stream::{Head, LossReader, LossRecord};
use kt_sum::RunSummaries;
use kt_tables::Portfolio;
use std::alloc::Global;

/// Whose losses the stream has.
fn perspective_of(items: bool) -> Perspective
    ensures { result ≡ perspective_of items }
{
    if items {
        Perspective::Gul
    } else {
        Perspective::Il
    }
}

/// Reads a stream of losses of items or of outputs and writes the summaries of a set of a portfolio. An error is what
/// refuses the stream, a record of it or its samples, a fault of the source or of the sink, or want of memory: where it
/// is refused the output of what came before is written, and any other error leaves some front of the output.
pub fn write_summaries<S: Source, K: Sink>(
    alloc: Global,
    items: bool,
    set: u32,
    portfolio: &Portfolio,
    source: &mut S,
    sink: &mut K,
) -> Result<(), ToolStop>
    ensures { StreamToolEnds (stream_uses true) (λ _ bytes. judged_outcome (summary_table items set) portfolio.now bytes) (S.state source.old) (S.state source.new) (K.state sink.old) (K.state sink.new) result }
{
    runs_give_their_text::<Head, LossRecord, (SummarySet, Portfolio)>();
    let ids = match known_ids(alloc, items, portfolio.tables()) {
        Ok(ids) => ids,
        Err(_) => return Err(ToolStop::NoMemory),
    };
    let summaries = match RunSummaries::new(alloc, portfolio, perspective_of(items), set) {
        Ok(summaries) => summaries,
        Err(_) => return Err(ToolStop::NoMemory),
    };
    let mut reader = LossReader::new(alloc, losses_kind(items));
    let mut stage = SummedLosses {
        alloc,
        portfolio,
        ids: &ids,
        of: SummarySet { items, set },
        last: LastLoss {
            is_open: false,
            event: 0,
            id: 0,
        },
        summaries,
    };
    run_stage(alloc, &mut reader, &mut stage, &mut (), source, sink)
}
