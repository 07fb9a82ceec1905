//! The ids, tops and layers of a programme.
//! The rule: docs/FINANCIAL_MODULE.md, "Levels".
ghost use Rattle.std.specs.Prelude.{◌≡◌, ◌<◌, [], length, slice_index, slice_index_or};
ghost use Rattle.kt_fmtree.specs.Tree.{Tree, beneath};
ghost use Rattle.kt_fmtree.specs.Parts.{IsProgramme};

use crate::node::Node;
use crate::programme::Programme;

impl Programme {
    /// The ids whose losses the programme takes, rising.
    pub fn ids(&self) -> &[u32]
        ensures value { result.now ≡ self.now.ids }
        ensures tree { (tree : Tree) → IsProgramme tree self.now → result.now ≡ tree.ids }
    {
        &self.ids
    }

    /// The units of the top level, rising.
    pub fn tops(&self) -> &[u32]
        ensures value { result.now ≡ self.now.tops }
        ensures tree { (tree : Tree) → IsProgramme tree self.now → result.now ≡ tree.tops }
    {
        &self.tops
    }

    /// How many levels there are from level 1 up.
    pub fn depth(&self) -> usize
        ensures value { result ≡ length self.now.levels }
    {
        self.levels.len()
    }

    /// The units of the next level above a level, which is counted from 0, in the order of the tree.
    pub fn nodes_above(&self, level: usize) -> &[Node]
        requires { level < length self.now.levels }
        ensures value { result.now ≡ slice_index_or self.now.levels level [] }
    {
        &self.levels[level]
    }

    /// The places of the ids in the order of the tree, among the ids by rising number.
    pub fn leaves(&self) -> &[usize]
        ensures value { result.now ≡ self.now.leaves }
    {
        &self.leaves
    }

    /// The layers of a top.
    pub(crate) fn layers_at(&self, node: usize) -> &[u32]
        requires { node < length self.now.tops }
        ensures value { result.now ≡ slice_index_or self.now.layers node [] }
    {
        self.layers.at(node)
    }

    /// The ids beneath a top.
    fn beneath_at(&self, node: usize) -> &[u32]
        requires { node < length self.now.tops }
        ensures value { result.now ≡ slice_index_or self.now.beneath node [] }
    {
        self.beneath.at(node)
    }

    /// The layers, rising, of the top at a place among the tops, which is counted from 0.
    pub fn layers(&self, node: u32) -> &[u32]
        requires { node < length self.now.tops }
        ensures value { result.now ≡ slice_index_or self.now.layers node [] }
        ensures tree { (tree : Tree) → IsProgramme tree self.now → result.now ≡ tree.layers (slice_index tree.tops node) }
    {
        self.layers_at(node as usize)
    }

    /// The ids, rising, beneath the top at a place among the tops, which is counted from 0.
    pub fn beneath(&self, node: u32) -> &[u32]
        requires { node < length self.now.tops }
        ensures value { result.now ≡ slice_index_or self.now.beneath node [] }
        ensures tree { (tree : Tree) → IsProgramme tree self.now → result.now ≡ beneath tree (slice_index tree.tops node) }
    {
        self.beneath_at(node as usize)
    }
}
