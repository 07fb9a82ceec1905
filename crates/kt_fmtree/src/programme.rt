//! The programme of the base or of a reinsurance stage.
//! The rule: docs/FINANCIAL_MODULE.md, "Levels".
ghost use Rattle.std.specs.Prelude.{◌≡◌};
ghost use Rattle.kt_fmtree.specs.Parts.{HasProgramme, lists_of};

use crate::lists::Lists;
use crate::node::Node;
use kt_rules::Profile;
use std::marker::Model;

/// The tree of a programme, level by level. Contracts see its lists, and say what they give by the trees of which they are the
/// lists.
#[derive(Drop)]
pub struct Programme {
    pub(crate) ids: Vec<u32>,
    pub(crate) leaves: Vec<usize>,
    pub(crate) levels: Vec<Vec<Node>>,
    pub(crate) tops: Vec<u32>,
    pub(crate) layers: Lists<u32>,
    pub(crate) terms: Lists<Profile>,
    pub(crate) beneath: Lists<u32>,
}

impl Model for Programme {
    ghost use Rattle.kt_fmtree.specs.Parts.{Parts, parts_of};

    ghost Value = { Parts };

    ghost view = { parts_of };

    ghost use Rattle.kt_fmtree.specs.Parts.{HasProgramme};

    ghost invariant = { λ p. HasProgramme (parts_of p) };
}

impl Programme {
    /// The programme of these lists, which are those of a tree that hangs together: the ids, rising; the places of the ids in the
    /// order of the tree; the units of each level from level 1 up; the tops, rising; and of each top its layers, their terms, and
    /// the ids beneath it.
    pub fn new(
        ids: Vec<u32>,
        leaves: Vec<usize>,
        levels: Vec<Vec<Node>>,
        tops: Vec<u32>,
        layers: Lists<u32>,
        terms: Lists<Profile>,
        beneath: Lists<u32>,
    ) -> Programme
        requires kept { HasProgramme (lists_of ids leaves levels tops layers terms beneath) }
        ensures value { result ≡ lists_of ids leaves levels tops layers terms beneath }
    {
        Programme {
            ids,
            leaves,
            levels,
            tops,
            layers,
            terms,
            beneath,
        }
    }

    /// Says what every programme keeps: it is that of a tree that hangs together.
    pub fn is_of_a_tree(&self)
        ensures kept { HasProgramme self.now }
    {
        let _ = &self.ids;
    }
}
