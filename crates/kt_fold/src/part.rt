//! A part of a round: the blocks of some events.
//! The rules: docs/ARCHITECTURE.md, "A run of all stages".
ghost use Rattle.std.specs.Prelude.{◌≡◌};
ghost use Rattle.kt_ends.specs.declared.status.Refusal.TheVariants as refusal;

use kt_ends::Refusal;
use kt_event::EventBlock;
use kt_rec::RowCause;
use kt_stream::Records;

/// A footprint row that is refused.
#[derive(Clone, Copy, Drop)]
pub struct RefusedRow {
    /// The event.
    pub event: u32,
    /// The number of the row among those of the event, from 1 on.
    pub row: u64,
    /// Why.
    pub cause: RowCause,
}

impl RefusedRow {
    /// How it refuses the run.
    pub(crate) fn refusal(self) -> Refusal
        ensures { result ≡ refusal.Row self.event self.row self.cause }
    {
        Refusal::Row {
            event: self.event,
            row: self.row,
            cause: self.cause,
        }
    }
}

/// The blocks of the events of a part, up to the first whose footprint rows are refused, and that row.
#[derive(Drop)]
pub struct PartBlock {
    /// The blocks, event by event.
    pub blocks: Records<EventBlock>,
    /// The refused row, of the event behind that of the last block.
    pub refused: Option<RefusedRow>,
}
