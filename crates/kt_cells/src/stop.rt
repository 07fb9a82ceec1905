//! Why a table is refused.
//! The rule: docs/TABLES.md, "What is refused".
ghost use Rattle.std.specs.Prelude.{◌≡◌};
ghost use Rattle.kt_cells.specs.Stops.{cause_of};
ghost use Rattle.kt_cells.specs.declared.stop.TableStop.TheVariants.{OutOfMemory};

use kt_rec::Cause;
use kt_text::BadText;
use std::alloc::{AllocError, AllocFailed};

/// Why a table is refused: the first place that is wrong.
#[derive(Clone, Copy)]
pub enum TableStop {
    /// The bytes are too few for a header, or do not begin with its mark.
    NotProfile,
    /// The header has the number of another table.
    WrongTable {
        /// That number.
        found: u32,
    },
    /// The header has another version.
    WrongVersion {
        /// That version.
        found: u32,
    },
    /// The bytes end within a record.
    CutRecord {
        /// The row that it would be, counted from 1.
        row: u64,
    },
    /// A row or a field is wrong.
    Bad {
        /// The row, counted from 1; 0 for the header.
        row: u64,
        /// The column, counted from 1; 0 for the row as a whole.
        column: u32,
        /// What is wrong.
        cause: Cause,
    },
    /// There is not enough memory.
    OutOfMemory,
}

impl From<AllocError> for TableStop {
    ghost from_gives = { λ _ stop. stop ≡ OutOfMemory };

    fn from(_error: AllocError) -> TableStop {
        TableStop::OutOfMemory
    }
}

impl<T: Drop> From<AllocFailed<T>> for TableStop {
    ghost from_gives = { λ _ stop. stop ≡ OutOfMemory };

    fn from(_error: AllocFailed<T>) -> TableStop {
        TableStop::OutOfMemory
    }
}

/// The cause for which a text stands for no number.
pub(crate) fn cause_of_text(text: BadText) -> Cause
    ensures { result ≡ cause_of text }
{
    match text {
        BadText::NotANumber => Cause::NotANumber,
        BadText::TooManyDigits => Cause::TooManyDigits,
        BadText::ExponentRange => Cause::ExponentRange,
        BadText::TooLarge => Cause::TooLarge,
    }
}
