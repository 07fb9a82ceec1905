//! What is kept for the lookups in the tables.
//! The rule: docs/TABLES.md, "Lookups".
ghost use Rattle.std.specs.Prelude.{IfOk};
ghost use Rattle.kt_rec.specs.Rows.{rows_of};
ghost use Rattle.kt_tables.specs.Kept.{AreAddable, AreLookups};

mod hazard;
mod items;
mod periods;
mod summaries;

use hazard::HazardLookups;
use items::ItemLookups;
use kt_rec::Tables;
use periods::PeriodLookups;
use std::alloc::{AllocError, Global};
use summaries::SummaryLookups;

/// What is kept for the lookups.
#[derive(Drop)]
pub(crate) struct Lookups {
    /// The lookups of periods.
    pub(crate) periods: PeriodLookups,
    /// The lookups of items.
    pub(crate) items: ItemLookups,
    /// The lookups of events and of damage.
    pub(crate) hazard: HazardLookups,
    /// The lookups of coverages and of summaries.
    pub(crate) summaries: SummaryLookups,
}

impl Lookups {
    /// What is kept for the lookups in tables, whose outputs are for items, or by rule 0 for units of the top level. An
    /// error is want of memory.
    pub(crate) fn new(alloc: Global, tables: &Tables, rule: u32) -> Result<Lookups, AllocError>
        requires { AreAddable (rows_of tables.now) }
        ensures value { IfOk result (AreLookups (rows_of tables.now) rule) }
    {
        Ok(Lookups {
            periods: PeriodLookups::new(alloc, tables)?,
            items: ItemLookups::new(alloc, tables)?,
            hazard: HazardLookups::new(alloc, tables)?,
            summaries: SummaryLookups::new(alloc, tables, rule)?,
        })
    }
}
