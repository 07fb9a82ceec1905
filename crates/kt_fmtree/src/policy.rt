//! The policy losses of the layers of a programme.
//! The rule: docs/FINANCIAL_MODULE.md, "Policy losses".
ghost use Rattle.std.specs.Prelude.{◌≡◌, ◌<◌, ℕ, [], nat_eq, true, length, slice_index, slice_index_or};
ghost use Rattle.std.specs.List.{list_any};
ghost use Rattle.kt_fmtree.specs.Tree.{Tree, policy_loss};
ghost use Rattle.kt_fmtree.specs.Parts.{IsProgramme};
ghost use Rattle.kt_fmtree.specs.Carried.{AreCarried, IsCarriedBy};

use crate::levels::Levels;
use crate::programme::Programme;
use kt_rules::{Profile, apply};

/// The place of a layer among layers that have it.
fn place_of(layers: &[u32], layer: u32) -> usize
    requires { list_any (nat_eq layer) layers.now ≡ true }
    ensures within { result < length layers.now }
    ensures value { slice_index layers.now result ≡ layer }
{
    for (place, other) in layers.iter().enumerate() {
        if *other == layer {
            return place;
        }
    }
    unreachable!()
}

/// The terms in a place.
fn profile_at(terms: &[Profile], place: usize) -> &Profile
    requires { place < length terms.now }
    ensures value { result.now ≡ slice_index_or terms.now place result.now }
{
    &terms[place]
}

impl Programme {
    /// The terms of the layers of a top.
    fn terms_at(&self, node: usize) -> &[Profile]
        requires { node < length self.now.tops }
        ensures value { result.now ≡ slice_index_or self.now.terms node [] }
    {
        self.terms.at(node)
    }

    /// The terms of a layer of the top at a place among the tops, which is counted from 0.
    pub fn layer_terms(&self, node: usize, layer: u32) -> &Profile
        requires node { node < length self.now.tops }
        requires layer { list_any (nat_eq layer) (slice_index_or self.now.layers node []) ≡ true }
        ensures value { (tree : Tree) → IsProgramme tree self.now → result.now ≡ tree.layer_profile (slice_index tree.tops node) layer }
    {
        self.is_of_a_tree();
        let place = place_of(self.layers_at(node), layer);
        profile_at(self.terms_at(node), place)
    }

    /// What the distinct coverages beneath the top at a place among the tops are worth, in cents.
    pub fn top_tiv(&self, node: usize) -> u64
        requires node { node < length self.now.tops }
        ensures value { (tree : Tree) → IsProgramme tree self.now → result ≡ tree.tiv tree.top_level (slice_index tree.tops node) }
    {
        self.levels[self.levels.len() - 1][node].tiv
    }

    /// The policy loss in cents of a layer of the top at a place among the tops, which is counted from 0, by the levels of this
    /// programme.
    pub fn policy(&self, levels: &Levels, node: u32, layer: u32) -> u64
        requires node { node < length self.now.tops }
        requires layer { list_any (nat_eq layer) (slice_index_or self.now.layers node []) ≡ true }
        requires levels { IsCarriedBy self.now levels.now }
        ensures value { (tree : Tree) (loss : ℕ → ℕ) → IsProgramme tree self.now → AreCarried tree loss self.now levels.now → result ≡ policy_loss tree loss (slice_index tree.tops node) layer }
    {
        let node = node as usize;
        let terms = self.layer_terms(node, layer);
        apply(terms, self.top_tiv(node), levels.base(node)).loss
    }
}
