//! What the units of a programme carry, level by level.
//! The rule: docs/FINANCIAL_MODULE.md, "Levels".
ghost use Rattle.std.specs.Prelude.{◌≡◌, ◌<◌, [], length, slice_index_or};

use kt_rules::Carry;
use std::marker::Model;

/// The four amounts of each unit below the top level, and of each top those that come to it. Contracts see the lists.
#[derive(Drop)]
pub struct Levels {
    pub(crate) rows: Vec<Vec<Carry>>,
    pub(crate) bases: Vec<Carry>,
}

impl Model for Levels {
    ghost use Rattle.kt_fmtree.specs.Carried.{Carried, carried_rows};

    ghost Value = { Carried };

    ghost view = { carried_rows };
}

impl Levels {
    /// What the units of a level below the top level carry, in the order of the tree; of any other level nothing.
    pub fn row(&self, level: usize) -> &[Carry]
        ensures value { result.now ≡ slice_index_or self.now.rows level [] }
    {
        match self.rows.get(level) {
            Some(row) => row,
            None => &[],
        }
    }

    /// What comes to a top.
    pub(crate) fn base(&self, node: usize) -> Carry
        requires { node < length self.now.bases }
        ensures value { result ≡ slice_index_or self.now.bases node result }
    {
        self.bases[node]
    }
}
