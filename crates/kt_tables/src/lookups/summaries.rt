//! The lookups of the insured values of coverages, and of the summaries that add them.
//! The rules: docs/TABLES.md, "Lookups"; docs/CALCULATION.md, "Summary".
ghost use Rattle.std.specs.Prelude.{ℕ, IfOk};
ghost use Rattle.kt_rec.specs.Rows.{rows_of};
ghost use Rattle.kt_rec.specs.declared.perspective.Perspective.TheVariants as perspective;
ghost use Rattle.kt_tables.specs.Kept.{AreAddable, AreTivs, AreSummariesOf, AreSummaryLookups};

use crate::columns::parts_of;
use crate::exposures::{item_exposures, output_exposures};
use crate::summaries::Summaries;
use kt_checks::tivs;
use kt_keys::UnitTable;
use kt_rec::Tables;
use std::alloc::{AllocError, Global};

/// The lookups of the insured values of coverages, and of the summaries that add them.
#[derive(Drop)]
pub(crate) struct SummaryLookups {
    /// The insured value of each coverage, as a unit of level 0.
    pub(crate) tivs: UnitTable<u64>,
    /// The summaries of items.
    pub(crate) of_items: Summaries,
    /// The summaries of outputs.
    pub(crate) of_outputs: Summaries,
}

/// The summaries of items.
fn of_items(alloc: Global, tables: &Tables, tivs: &UnitTable<u64>) -> Result<Summaries, AllocError>
    requires addable { AreAddable (rows_of tables.now) }
    requires tivs { AreTivs (rows_of tables.now) tivs.now }
    ensures value { IfOk result (λ found. (rule : ℕ) → AreSummariesOf perspective.Gul (rows_of tables.now) rule found) }
{
    let rows = parts_of(alloc, &tables.gulsummaryxref)?;
    let exposures = item_exposures(alloc, tables, &rows, tivs)?;
    Summaries::new(alloc, &rows, exposures)
}

/// The summaries of outputs.
fn of_outputs(
    alloc: Global,
    tables: &Tables,
    rule: u32,
    tivs: &UnitTable<u64>,
) -> Result<Summaries, AllocError>
    requires addable { AreAddable (rows_of tables.now) }
    requires tivs { AreTivs (rows_of tables.now) tivs.now }
    ensures value { IfOk result (AreSummariesOf perspective.Il (rows_of tables.now) rule) }
{
    let rows = parts_of(alloc, &tables.fmsummaryxref)?;
    let exposures = output_exposures(alloc, tables, rule, &rows, tivs)?;
    Summaries::new(alloc, &rows, exposures)
}

impl SummaryLookups {
    /// What is kept of coverages and of summaries. The outputs are for items, or by rule 0 for units of the top level. An
    /// error is want of memory.
    pub(crate) fn new(
        alloc: Global,
        tables: &Tables,
        rule: u32,
    ) -> Result<SummaryLookups, AllocError>
        requires { AreAddable (rows_of tables.now) }
        ensures value { IfOk result (AreSummaryLookups (rows_of tables.now) rule) }
    {
        let tivs = tivs(alloc, &tables.coverages)?;
        Ok(SummaryLookups {
            of_items: of_items(alloc, tables, &tivs)?,
            of_outputs: of_outputs(alloc, tables, rule, &tivs)?,
            tivs,
        })
    }
}
