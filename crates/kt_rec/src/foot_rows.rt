//! Why a row of an event's footprint is refused, and why an event has no distributions.
//! The rules: docs/CHECKS.md, "Footprint rows of an event".
ghost use Rattle.std.specs.Prelude.{◌≡◌};

use std::alloc::AllocError;

/// Why a row of an event's footprint is refused.
#[derive(Clone, Copy)]
pub enum RowCause {
    /// The areaperil is not from 1 to 2,147,483,647.
    Areaperil,
    /// The intensity is not from 1 to 10,000.
    Intensity,
    /// The probability is above 1,000,000.
    Prob,
    /// Its areaperil and intensity stand in an earlier row.
    Twice,
    /// The probabilities of its areaperil add to more than 1,001,000 up to this row.
    Sum,
}

/// Why an event has no distributions.
#[derive(Clone, Copy)]
pub enum ModelStop {
    /// A row of its footprint is refused.
    Row {
        /// The first row that is refused, counted from 1 within the event.
        row: u64,
        /// Why.
        cause: RowCause,
    },
    /// Want of memory.
    OutOfMemory,
}

impl From<AllocError> for ModelStop {
    ghost use Rattle.kt_rec.specs.declared.foot_rows.ModelStop.TheVariants.{OutOfMemory};

    ghost from_gives = { λ _ stop. stop ≡ OutOfMemory };

    fn from(_: AllocError) -> Self {
        ModelStop::OutOfMemory
    }
}
