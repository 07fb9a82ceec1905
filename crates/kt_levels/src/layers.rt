//! The layers of the tops of a programme.
//! The rule: docs/FINANCIAL_MODULE.md, "Policy losses".
ghost use Rattle.std.specs.Prelude.{◌≡◌, ◌++◌, map, IfOk, OnOk};
ghost use Rattle.std.specs.List.{AllByRecursion};
ghost use Rattle.kt_rec.specs.Rising.{IsRising};
ghost use Rattle.kt_fmtree.specs.Tree.{Tree};
ghost use Rattle.kt_fmtree.specs.Parts.{IsProgramme};
ghost use Rattle.kt_levels.specs.Layers.{IsTopLayer, key_of, layers_from};
ghost use Rattle.kt_levels.specs.Shares.{layers_of};

use kt_fmtree::Programme;
use std::alloc::{AllocError, Global};

/// A layer of a top.
#[derive(Clone, Copy)]
pub struct TopLayer {
    /// The place of the top among the tops, counted from 0.
    pub node: u32,
    /// The top.
    pub top: u32,
    /// The layer.
    pub layer: u32,
}

/// Puts the layers of a top behind others.
fn push_layers(
    node: u32,
    top: u32,
    layers: &[u32],
    found: &mut Vec<TopLayer>,
) -> Result<(), AllocError>
    ensures ok { OnOk result (found.new.items ≡ found.old.items ++ map (λ layer. record { node = node; top = top; layer = layer }) layers.now) }
{
    for layer in layers {
        found.push(TopLayer {
            node,
            top,
            layer: *layer,
        })?;
    }
    Ok(())
}

/// The layers of the tops of a programme, by top and then by layer. An error is want of memory.
pub fn top_layers(alloc: Global, programme: &Programme) -> Result<Vec<TopLayer>, AllocError>
    requires rising { IsRising programme.now.tops }
    ensures keys { IfOk result (λ found. (tree : Tree) → IsProgramme tree programme.now → map key_of found.items ≡ layers_of tree) }
    ensures within { IfOk result (λ found. AllByRecursion (IsTopLayer programme.now) found.items) }
{
    let tops = programme.tops();
    let mut found = Vec::with_capacity(alloc, tops.len())?;
    for (place, top) in tops.iter().enumerate() {
        let node = place as u32;
        push_layers(node, *top, programme.layers(node), &mut found)?;
    }
    Ok(found)
}
