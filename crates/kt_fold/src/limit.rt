//! A limit of the cells that a record of an event passes.
//! The rules: docs/CALCULATION.md, "Periods"; docs/REFUSALS.md, "Order".
ghost use Rattle.std.specs.Prelude.{◌≡◌};
ghost use Rattle.kt_fold.specs.Limits.{limit_refusal, stop_of_cells};

use crate::fold::FoldStop;
use kt_cell::CellStop;
use kt_ends::Refusal;
use kt_rec::CellKey;

/// The limit of the cells that a record passes: a stop of the cells that is not want of memory.
#[derive(Clone, Copy, Drop)]
pub enum CellLimit {
    /// The next loss needs one more cell than may be held.
    Cells {
        /// How many cells are held.
        held: u64,
    },
    /// The next loss makes the total of a key too great.
    Period {
        /// The key.
        key: CellKey,
        /// Its total before, in cents.
        held: u64,
        /// The loss, in cents.
        more: u64,
    },
}

impl CellLimit {
    /// How it refuses the run at an event.
    pub(crate) fn refusal(self, event: u32) -> Refusal
        ensures { result ≡ limit_refusal event self }
    {
        match self {
            CellLimit::Cells { held } => Refusal::Cells { event, held },
            CellLimit::Period { key, held, more } => Refusal::Period {
                event,
                key,
                held,
                more,
            },
        }
    }
}

/// How the fold stops where the cells stop at a record of an event: want of memory of the cells is that of the fold.
pub(crate) fn stop_of_cells(event: u32, stop: CellStop) -> FoldStop
    ensures { result ≡ stop_of_cells event stop }
{
    match stop {
        CellStop::Cells { held } => FoldStop::Cell {
            event,
            limit: CellLimit::Cells { held },
        },
        CellStop::Period { key, held, more } => FoldStop::Cell {
            event,
            limit: CellLimit::Period { key, held, more },
        },
        CellStop::OutOfMemory => FoldStop::OutOfMemory,
    }
}
