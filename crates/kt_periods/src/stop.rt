//! How a run over all periods ends where the cells refuse a record.
//! The rules: docs/CALCULATION.md, "Periods"; docs/REFUSALS.md, "Order".
ghost use Rattle.std.specs.Prelude.{◌≡◌};
ghost use Rattle.kt_ends.specs.declared.tool_stop.ToolStop.{ToolStop};
ghost use Rattle.kt_periods.specs.Standing.{cell_tool_stop};

use kt_cell::CellStop;
use kt_ends::{Refusal, ToolStop};

/// How a run ends where the cells refuse a record of an event.
pub fn cell_stop(event: u32, stop: CellStop) -> ToolStop
    ensures value { result ≡ cell_tool_stop event stop }
{
    match stop {
        CellStop::Cells { held } => ToolStop::Refused(Refusal::Cells { event, held }),
        CellStop::Period { key, held, more } => ToolStop::Refused(Refusal::Period {
            event,
            key,
            held,
            more,
        }),
        CellStop::OutOfMemory => ToolStop::NoMemory,
    }
}
