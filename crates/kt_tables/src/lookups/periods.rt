//! The lookups of periods: when events occur, and the periods in which losses return.
//! The rule: docs/TABLES.md, "Lookups".
ghost use Rattle.std.specs.Prelude.{IfOk};
ghost use Rattle.kt_rec.specs.Rows.{rows_of};
ghost use Rattle.kt_tables.specs.Kept.{ArePeriodLookups};

use kt_index::ByKey;
use kt_keys::keys_of;
use kt_rec::{Occurrence, Tables};
use std::alloc::{AllocError, Global};

/// The lookups of occurrences and of return periods.
#[derive(Drop)]
pub(crate) struct PeriodLookups {
    /// The occurrences by event.
    pub(crate) occurrences: ByKey<Occurrence>,
    /// The return periods in table order.
    pub(crate) return_periods: Vec<u32>,
}

impl PeriodLookups {
    /// What is kept of occurrences and of return periods. An error is want of memory.
    pub(crate) fn new(alloc: Global, tables: &Tables) -> Result<PeriodLookups, AllocError>
        ensures value { IfOk result (ArePeriodLookups (rows_of tables.now)) }
    {
        Ok(PeriodLookups {
            occurrences: ByKey::new(alloc, &tables.occurrence)?,
            return_periods: keys_of(alloc, &tables.returnperiods)?,
        })
    }
}
