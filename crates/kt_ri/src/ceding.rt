//! A programme that cedes losses.
//! The rule: docs/FINANCIAL_MODULE.md, "Reinsurance".
ghost use Rattle.std.specs.Prelude.{◌≡◌, ◌≤◌, All, IfOk};
ghost use Rattle.kt_rec.specs.Rising.{IsRising};
ghost use Rattle.kt_stream.specs.Losses.{IsLoss};
ghost use Rattle.kt_runs.specs.RunLosses.{AreWithin};
ghost use Rattle.kt_fmtree.specs.Tree.{Tree};
ghost use Rattle.kt_fmtree.specs.Parts.{HasProgramme, IsProgramme};
ghost use Rattle.kt_levels.specs.Shares.{layers_of};
ghost use Rattle.kt_levels.specs.Table.{table_for};
ghost use Rattle.kt_ri.specs.Ceding.{AreLayers, ArePlaces, HasFewLayers};

use crate::places::owner_places;
use kt_fmtree::Programme;
use kt_levels::{Table, TopLayer, table_of_run, top_layers};
use kt_runs::RunLosses;
use std::alloc::{AllocError, Global};
use std::marker::Model;

/// A programme that cedes losses, with the layers of its tops and the places of the ids that have the shares of their policy
/// losses. Contracts see the lists of the programme.
#[derive(Drop)]
pub(crate) struct CedingProgramme {
    programme: Programme,
    layers: Vec<TopLayer>,
    places: Vec<usize>,
}

impl Model for CedingProgramme {
    ghost use Rattle.kt_fmtree.specs.Parts.{Parts};
    ghost use Rattle.kt_ri.specs.Ceding.{IsKept, programme_in};

    ghost Value = { Parts };

    ghost view = { programme_in };

    ghost invariant = { IsKept };
}

/// The layers of the tops of a programme, by top and then by layer, and the places of the ids that have the shares of their policy losses.
fn layers_and_places(
    alloc: Global,
    programme: &Programme,
) -> Result<(Vec<TopLayer>, Vec<usize>), AllocError>
    requires rising { IsRising programme.now.tops }
    ensures layers { IfOk result (λ made. AreLayers programme.now made.0.items) }
    ensures places { IfOk result (λ made. ArePlaces programme.now made.1.items) }
{
    let layers = top_layers(alloc, programme)?;
    let places = owner_places(alloc, programme, &layers)?;
    Ok((layers, places))
}

/// A programme with what its layers cede to.
pub(crate) fn ceding_of(alloc: Global, programme: Programme) -> Result<CedingProgramme, AllocError>
    requires few { HasFewLayers programme }
    ensures value { IfOk result (λ made. made ≡ programme) }
{
    let (layers, places) = layers_and_places(alloc, &programme)?;
    Ok(CedingProgramme {
        programme,
        layers,
        places,
    })
}

impl CedingProgramme {
    /// Says what it keeps: its programme is of a tree, and a top has few layers.
    pub(crate) fn is_ceding(&self)
        ensures tree { HasProgramme self.now }
        ensures few { HasFewLayers self.now }
    {
        self.programme.is_of_a_tree();
        let _ = &self.layers;
    }

    /// The ids whose losses the programme takes, rising.
    pub(crate) fn ids(&self) -> &[u32]
        ensures value { result.now ≡ self.now.ids }
    {
        self.programme.ids()
    }

    /// The places of the ids that have the shares in a row of its layers.
    pub(crate) fn places(&self) -> &[usize]
        ensures places { ArePlaces self.now result.now }
    {
        &self.places
    }

    /// What its layers have of the losses of a run at the mean and at each sample.
    pub(crate) fn table<R: RunLosses>(
        &self,
        alloc: Global,
        samples: u32,
        rule: u32,
        run: &R,
    ) -> Result<Table, AllocError>
        requires samples { samples ≤ 1000 }
        requires rule { rule ≤ 2 }
        requires has_rows { R.has_rows samples run.now }
        requires records { All (IsLoss samples) (R.records_of run.now) }
        requires within { AreWithin (R.records_of run.now) }
        ensures value { IfOk result (λ table. (tree : Tree) → IsProgramme tree self.now → table ≡ table_for tree rule samples (R.records_of run.now) (layers_of tree)) }
    {
        let layers = self.layers();
        table_of_run(alloc, &self.programme, samples, rule, layers, run)
    }

    /// The layers of its tops, by top and then by layer.
    fn layers(&self) -> &[TopLayer]
        ensures layers { AreLayers self.now result.now }
    {
        &self.layers
    }
}
