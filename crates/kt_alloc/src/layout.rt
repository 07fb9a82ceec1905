//! Where the loss of each output stands in a row of shares.
//! The rule: docs/FINANCIAL_MODULE.md, "Insured losses".
ghost use Rattle.std.specs.Prelude.{◌≡◌, ◌++◌, ℕ, nat_eq, List, [], ◌∷◌, map, IfOk, OnOk};
ghost use Rattle.std.specs.List.{AllByRecursion, filter_map, flat_map};
ghost use Rattle.kt_rec.specs.declared.financial.FmXref.{FmXref};
ghost use Rattle.kt_rec.specs.Rising.{IsRising};
ghost use Rattle.kt_fmtree.specs.Tree.{Tree};
ghost use Rattle.kt_fmtree.specs.Parts.{IsProgramme};
ghost use Rattle.kt_alloc.specs.Index.{AreIndexed};
ghost use Rattle.kt_alloc.specs.Insured.{in_order};
ghost use Rattle.kt_alloc.specs.Layout.{IsLayout, keys_for, outlet_of};
ghost use Rattle.kt_levels.specs.Layers.{IsTopLayer, key_of};

use crate::index::OutputIndex;
use crate::outlets::{Outlet, first_outlets};
use kt_fmtree::Programme;
use kt_levels::{TopLayer, top_layers};
use std::alloc::{AllocError, Global};
use std::marker::Model;

/// Where the loss of each output stands in a row of shares: of the layers of all tops, by top and then by layer, the shares of
/// each policy loss.
#[derive(Drop)]
pub(crate) struct Layout {
    pub(crate) rule: u32,
    pub(crate) layers: Vec<TopLayer>,
    pub(crate) outlets: Vec<Outlet>,
}

impl Model for Layout {
    ghost use Rattle.kt_alloc.specs.Layout.{Laid, laid_out};

    ghost Value = { Laid };

    ghost view = { laid_out };
}

/// Puts the units that have shares of a layer, with the layer, behind others.
fn push_keys(
    programme: &Programme,
    rule: u32,
    one: TopLayer,
    keys: &mut Vec<(u32, u32)>,
) -> Result<(), AllocError>
    requires layer { IsTopLayer programme.now one }
    ensures ok { OnOk result ((tree : Tree) → IsProgramme tree programme.now → keys.new.items ≡ keys.old.items ++ keys_for tree rule (key_of one ∷ [])) }
{
    if rule == 0 {
        keys.push((one.top, one.layer))?;
        return Ok(());
    }
    let owners = programme.beneath(one.node);
    for owner in owners {
        keys.push((*owner, one.layer))?;
    }
    Ok(())
}

/// The units and layers that have shares, in the order of a row.
fn keys_of(
    alloc: Global,
    programme: &Programme,
    rule: u32,
    layers: &[TopLayer],
) -> Result<Vec<(u32, u32)>, AllocError>
    requires layers { AllByRecursion (IsTopLayer programme.now) layers.now }
    ensures value { IfOk result (λ keys. (tree : Tree) → IsProgramme tree programme.now → keys.items ≡ keys_for tree rule (map key_of layers.now)) }
{
    let mut keys = Vec::with_capacity(alloc, layers.len())?;
    for one in layers {
        push_keys(programme, rule, *one, &mut keys)?;
    }
    Ok(keys)
}

/// The outputs that have a place among keys, with it, by rising output.
fn outlets_for(
    alloc: Global,
    outputs: &OutputIndex,
    keys: &[(u32, u32)],
) -> Result<Vec<Outlet>, AllocError>
    ensures value { IfOk result (λ outlets. (all : List FmXref) → AreIndexed all outputs.now → outlets.items ≡ filter_map (outlet_of keys.now) (in_order all)) }
{
    let outlets = first_outlets(alloc, outputs.outlets(alloc, keys)?)?;
    Ok(outlets)
}

impl Layout {
    /// The layout of outputs for a programme and an allocation rule, 0 to 2. An error is want of memory.
    pub(crate) fn new(
        alloc: Global,
        outputs: &OutputIndex,
        programme: &Programme,
        rule: u32,
    ) -> Result<Layout, AllocError>
        requires rising { IsRising programme.now.tops }
        ensures rule { IfOk result (λ layout. layout.rule ≡ rule) }
        ensures value { IfOk result (λ layout. (tree : Tree) (all : List FmXref) → IsProgramme tree programme.now → AreIndexed all outputs.now → IsLayout tree all programme.now layout) }
    {
        let layers = top_layers(alloc, programme)?;
        let keys = keys_of(alloc, programme, rule, &layers)?;
        let outlets = outlets_for(alloc, outputs, &keys)?;
        Ok(Layout {
            rule,
            layers,
            outlets,
        })
    }

    /// The allocation rule.
    pub(crate) fn rule(&self) -> u32
        ensures value { result ≡ self.now.rule }
    {
        self.rule
    }

    /// The layers of the tops, by top and then by layer.
    pub(crate) fn layers(&self) -> &[TopLayer]
        ensures value { result.now ≡ self.now.layers }
    {
        &self.layers
    }

    /// The outputs that have a place, by rising output.
    pub(crate) fn outlets(&self) -> &[Outlet]
        ensures value { result.now ≡ self.now.outlets }
    {
        &self.outlets
    }
}
