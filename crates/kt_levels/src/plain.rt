//! Whether the rules of a programme see the losses alone.
//! The rules: docs/FINANCIAL_MODULE.md, "Calculation rules".
ghost use Rattle.std.specs.Prelude.{◌≡◌, ◌<◌, ◌∷◌, [], nat_eq, true, length, slice_index, slice_index_or, All, ℕ};
ghost use Rattle.std.specs.List.{list_any};
ghost use Rattle.kt_rules.specs.LossAlone.{looks_back};
ghost use Rattle.kt_fmtree.specs.Tree.{Tree};
ghost use Rattle.kt_fmtree.specs.Parts.{IsProgramme};
ghost use Rattle.kt_levels.specs.Climbed.{ArePlain, HasPlainUnits};

use kt_fmtree::{Node, Programme};
use kt_rules::looks_back;

/// Whether the rules of units see the losses alone.
fn are_plain(nodes: &[Node]) -> bool
    ensures plain { result ≡ true → ArePlain nodes.now }
{
    for node in nodes {
        if looks_back(&node.profile) {
            return false;
        }
    }
    true
}

/// Whether the rules of all units of a programme below its top level see the losses alone: none has a minimum or a maximum
/// deductible. Then its losses can be carried by lanes.
pub fn has_plain_units(programme: &Programme) -> bool
    ensures plain { result ≡ true → HasPlainUnits programme.now }
{
    for level in 0..programme.depth() {
        if !are_plain(programme.nodes_above(level)) {
            return false;
        }
    }
    true
}

/// Whether the rule of a layer of the top at a place among the tops, which is counted from 0, looks at what was taken before.
pub fn layer_looks_back(programme: &Programme, node: u32, layer: u32) -> bool
    requires node { node < length programme.now.tops }
    requires layer { list_any (nat_eq layer) (slice_index_or programme.now.layers node []) ≡ true }
    ensures value { (tree : Tree) → IsProgramme tree programme.now → result ≡ looks_back (tree.layer_profile (slice_index tree.tops node) layer).rule }
{
    looks_back(programme.layer_terms(node as usize, layer))
}
