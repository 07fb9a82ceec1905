//! The structure of a programme, as the tables have it.
//! The rule: docs/FINANCIAL_MODULE.md, "Levels".
ghost use Rattle.std.specs.Prelude.{◌≡◌, ◌<◌, ℕ, true, All, IfOk};
ghost use Rattle.kt_rec.specs.Rows.{rows_of};
ghost use Rattle.kt_rec.specs.declared.table.Table.TheVariants as table;
ghost use Rattle.kt_keys.specs.Refusals.{is_loaded};
ghost use Rattle.kt_fmtree.specs.Programme.{tree_of};
ghost use Rattle.kt_structure.specs.Ready.{IsReady};
ghost use Rattle.kt_structure.specs.Structure.{IsStructure, kept_by};

use crate::coverage::{covered_ids, tivs};
use crate::links::Link;
use crate::outline::layer_links;
use crate::terms::Terms;
use kt_checks::next_units;
use kt_index::ByKey;
use kt_keys::{UnitTable, policytc, profile, programme, top_level};
use kt_rec::Tables;
use kt_tables::Portfolio;
use std::alloc::{AllocError, Global};

/// The structure of a programme: which unit the losses of each come to, with the terms of units and layers and what the
/// coverages beneath them are worth. It depends on the tables alone, so that one serves all runs. Contracts see what it keeps of
/// each unit (`kept_by`), and say what it gives by the tree whose structure it is.
#[derive(Drop)]
pub struct Structure {
    pub(crate) top_level: u32,
    pub(crate) next: UnitTable<u32>,
    pub(crate) terms: Terms,
    pub(crate) tivs: UnitTable<u64>,
    pub(crate) layers: ByKey<Link>,
}

/// The structure of the programme of a stage.
pub(crate) fn structure_at(
    alloc: Global,
    tables: &Tables,
    stage: u32,
) -> Result<Structure, AllocError>
    requires stage { stage < 10 }
    requires ready { IsReady (rows_of tables.now) stage }
    ensures value { IfOk result (λ made. IsStructure (tree_of (rows_of tables.now) stage) (kept_by made)) }
{
    let rows = programme(tables, stage);
    let top_level = top_level(rows);
    let next = next_units(alloc, rows)?;
    let covered = covered_ids(alloc, tables, stage)?;
    let worth = tivs(alloc, &next, top_level, covered, &tables.coverages)?;
    let layers = layer_links(alloc, policytc(tables, stage), top_level)?;
    let terms = Terms::new(alloc, policytc(tables, stage), profile(tables, stage))?;
    Ok(Structure {
        top_level,
        next,
        terms,
        tivs: worth,
        layers,
    })
}

impl Structure {
    /// The structure of the programme of the base, at 0, or of a reinsurance stage, 1 to 9, whose `fm_programme` must be loaded.
    /// An error is want of memory.
    pub fn new(alloc: Global, portfolio: &Portfolio, stage: u32) -> Result<Structure, AllocError>
        requires stage { stage < 10 }
        requires loaded { is_loaded portfolio.now.need stage table.FmProgramme ≡ true }
        ensures value { IfOk result (λ made. IsStructure (tree_of portfolio.now.rows stage) (kept_by made)) }
    {
        portfolio.is_valid();
        structure_at(alloc, portfolio.tables(), stage)
    }
}
