//! What all events of a run share, made once.
//! The rules: docs/FINANCIAL_MODULE.md, "Levels", "Reinsurance".
ghost use Rattle.std.specs.Prelude.{◌≡◌, ◌≤◌, true, IfOk};
ghost use Rattle.kt_keys.specs.Refusals.{is_loaded};
ghost use Rattle.kt_rec.specs.declared.table.Table.TheVariants as table;
ghost use Rattle.kt_ri.specs.Stages.{AreStages};
ghost use Rattle.kt_event.specs.Losses.{stage_trees};
ghost use Rattle.kt_event.specs.Needs.{chain_need};
ghost use Rattle.kt_event.specs.Plan.{HasBase, IsBase, IsPlan, kept_stages, terms_of};
ghost use Rattle.kt_block.specs.Terms.{AreTerms};

use kt_alloc::OutputIndex;
use kt_block::Terms;
use kt_rec::Perspective;
use kt_ri::stage_of;
use kt_structure::Structure;
use kt_tables::Portfolio;
use std::alloc::{AllocError, Global};

/// The structure of the base's programme, and its outputs.
#[derive(Drop)]
pub(crate) struct Base {
    pub(crate) structure: Structure,
    pub(crate) outputs: OutputIndex,
}

/// What all events of a run share: its terms, and the structures of its programmes, of which each run of losses takes what it
/// strikes.
#[derive(Drop)]
pub struct Plan {
    pub(crate) terms: Terms,
    pub(crate) base: Option<Base>,
    pub(crate) stages: Vec<Structure>,
}

/// The base of a portfolio whose programme is loaded.
fn base_of(alloc: Global, portfolio: &Portfolio) -> Result<Base, AllocError>
    requires programme { is_loaded portfolio.now.need 0 table.FmProgramme ≡ true }
    ensures value { IfOk result (IsBase portfolio.now.rows) }
{
    let structure = Structure::new(alloc, portfolio, 0)?;
    let outputs = OutputIndex::new(alloc, portfolio)?;
    Ok(Base { structure, outputs })
}

/// The base, where there are insured losses.
fn base_up_to(
    alloc: Global,
    portfolio: &Portfolio,
    terms: &Terms,
) -> Result<Option<Base>, AllocError>
    requires need { portfolio.now.need ≡ chain_need terms.now }
    requires terms { AreTerms terms.now }
    ensures value { IfOk result (HasBase terms.now.last portfolio.now.rows) }
{
    match terms.last {
        Perspective::Gul => Ok(None),
        Perspective::Il | Perspective::Ri => {
            let base = base_of(alloc, portfolio)?;
            Ok(Some(base))
        }
    }
}

/// The first so many stages.
fn first_stages(
    alloc: Global,
    portfolio: &Portfolio,
    stages: u32,
) -> Result<Vec<Structure>, AllocError>
    requires stages { stages ≤ 9 }
    requires loaded { (stage : _) → 1 ≤ stage → stage ≤ stages → is_loaded portfolio.now.need stage table.FmProgramme ≡ true }
    ensures value { IfOk result (λ made. AreStages (stage_trees portfolio.now.rows stages) made.items) }
{
    let mut made = Vec::new(alloc);
    for stage in 0..stages {
        made.push(stage_of(alloc, portfolio, stage + 1)?)?;
    }
    Ok(made)
}

/// The stages, where there are net losses.
fn stages_up_to(
    alloc: Global,
    portfolio: &Portfolio,
    terms: &Terms,
) -> Result<Vec<Structure>, AllocError>
    requires need { portfolio.now.need ≡ chain_need terms.now }
    requires terms { AreTerms terms.now }
    ensures value { IfOk result (λ made. AreStages (stage_trees portfolio.now.rows (kept_stages terms.now.last terms.now.stages)) made.items) }
{
    match terms.last {
        Perspective::Gul | Perspective::Il => Ok(Vec::new(alloc)),
        Perspective::Ri => first_stages(alloc, portfolio, terms.stages),
    }
}

impl Plan {
    /// The plan of a run with these terms, over a portfolio that was loaded for them. An error is want of memory.
    pub fn new(alloc: Global, portfolio: &Portfolio, terms: Terms) -> Result<Plan, AllocError>
        requires terms { AreTerms terms }
        requires need { portfolio.now.need ≡ chain_need terms }
        ensures plan { IfOk result (IsPlan portfolio.now) }
        ensures terms { IfOk result (λ plan. terms_of plan ≡ terms) }
    {
        let base = base_up_to(alloc, portfolio, &terms)?;
        let stages = stages_up_to(alloc, portfolio, &terms)?;
        Ok(Plan {
            terms,
            base,
            stages,
        })
    }

    /// The terms of the run.
    pub fn terms(&self) -> &Terms
        ensures { result.now ≡ terms_of self.now }
    {
        &self.terms
    }
}
