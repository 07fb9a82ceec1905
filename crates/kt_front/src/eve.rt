//! The tool that gives the events of a part of the event list.
//! The rules: docs/COMMANDS.md, "eve".
ghost use Rattle.std.specs.Prelude.{◌≡◌, true};
ghost use Rattle.kt_ends.specs.Ending.{ToolEnds};
ghost use Rattle.kt_ends.specs.Stops.{end_status};
ghost use Rattle.kt_ends.specs.World.{world};
ghost use Rattle.kt_eve.specs.Parts.{has_part};
ghost use Rattle.kt_out.specs.InputFiles.{InputsState};
ghost use Rattle.kt_out.specs.OutputFiles.{OutputsState};
ghost use Rattle.kt_out.specs.Reading.{SourceState};
ghost use Rattle.kt_front.specs.EventList.{eve_outcome, eve_uses};

use kt_blocks::write_ids;
use kt_ends::{ToolStop, write_stop};
use kt_eve::part as events_of_part;
use kt_out::Sink;
use kt_tables::Portfolio;
use std::alloc::Global;

/// Writes the ids of the events of a part of the event list of a portfolio. An error is a fault of the sink or want of
/// memory: some front of the ids is written then.
pub fn write_events<K: Sink>(
    alloc: Global,
    part: u32,
    parts: u32,
    portfolio: &Portfolio,
    sink: &mut K,
) -> Result<(), ToolStop>
    requires { has_part part parts ≡ true }
    // The source and the files are none of its objects: whatever they hold and have counted stays so.
    ensures { (inputs : InputsState) (outputs : OutputsState) (source : SourceState) → ToolEnds eve_uses (λ _ _. eve_outcome part parts portfolio.now.rows) (world inputs outputs source (K.state sink.old)) (world inputs outputs source (K.state sink.new)) (end_status result) }
{
    let Ok(events) = events_of_part(portfolio.events(), part, parts) else {
        unreachable!()
    };
    match write_ids(alloc, events, sink) {
        Ok(()) => Ok(()),
        Err(fault) => Err(write_stop(fault)),
    }
}
