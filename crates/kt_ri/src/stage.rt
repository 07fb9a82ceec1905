//! The structure of a stage, by which it cedes the losses of all runs.
//! The rule: docs/FINANCIAL_MODULE.md, "Reinsurance".
ghost use Rattle.std.specs.Prelude.{◌≡◌, ◌<◌, true, IfOk};
ghost use Rattle.kt_keys.specs.Refusals.{is_loaded};
ghost use Rattle.kt_rec.specs.declared.table.Table.TheVariants as table;
ghost use Rattle.kt_fmtree.specs.Programme.{tree_of};
ghost use Rattle.kt_ri.specs.Stages.{IsStage};

use kt_structure::Structure;
use kt_tables::Portfolio;
use std::alloc::{AllocError, Global};

/// The structure of the programme of the base, at 0, or of a reinsurance stage, 1 to 9, whose `fm_programme` must be loaded, as it
/// cedes losses. It depends on the tables alone, so that one serves all runs. An error is want of memory.
pub fn stage_of(alloc: Global, portfolio: &Portfolio, stage: u32) -> Result<Structure, AllocError>
    requires stage { stage < 10 }
    requires loaded { is_loaded portfolio.now.need stage table.FmProgramme ≡ true }
    ensures value { IfOk result (IsStage (tree_of portfolio.now.rows stage)) }
{
    portfolio.is_valid();
    let structure = Structure::new(alloc, portfolio, stage)?;
    Ok(structure)
}
