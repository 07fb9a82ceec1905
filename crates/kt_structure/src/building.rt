//! The programme of the ids that have losses.
//! The rule: docs/FINANCIAL_MODULE.md, "Levels".
ghost use Rattle.std.specs.Prelude.{◌≡◌, ◌<◌, nat_eq, true, length, map, All, IfOk, slice_index};
ghost use Rattle.std.specs.List.{AllByRecursion, list_any};
ghost use Rattle.kt_fmtree.specs.Struck.{struck};
ghost use Rattle.kt_rec.specs.Rising.{IsRising};
ghost use Rattle.kt_fmtree.specs.Tree.{Tree};
ghost use Rattle.kt_fmtree.specs.Parts.{IsProgramme};
ghost use Rattle.kt_structure.specs.Plan.{build_levels, build_leaves};
ghost use Rattle.kt_structure.specs.Structure.{Fits, HasFit, HasStructure, IsStructure, kept_by};

use crate::links::{Link, by_key, climb};
use crate::outline::{beneath, layers, reached, taken, terms};
use crate::plan::Plan;
use crate::structure::Structure;
use kt_fmtree::{Node, Programme, places_of};
use kt_index::ByKey;
use std::alloc::{AllocError, Global};

/// A copy of ids.
fn copy_of(alloc: Global, ids: &[u32]) -> Result<Vec<u32>, AllocError>
    ensures value { IfOk result (λ copy. copy.items ≡ ids.now) }
{
    ids.iter().copied().collect(alloc)
}

/// The levels beneath tops, and the places of the ids beneath them.
fn levels_of(
    alloc: Global,
    plan: &Plan,
    top: u32,
    tops: &[u32],
    ids: &[u32],
) -> Result<(Vec<Vec<Node>>, Vec<usize>), AllocError>
    requires rising { IsRising ids.now }
    requires members { AllByRecursion (λ id. list_any (nat_eq id) ids.now ≡ true) (build_leaves plan.now top tops.now) }
    ensures levels { IfOk result (λ made. map (λ nodes. nodes.items) made.0.items ≡ build_levels plan.now top tops.now) }
    ensures within { IfOk result (λ made. All (λ place. place < length ids.now) made.1.items) }
    ensures leaves { IfOk result (λ made. map (slice_index ids.now) made.1.items ≡ build_leaves plan.now top tops.now) }
{
    let units = copy_of(alloc, tops)?;
    let mut levels = Vec::new(alloc);
    let found = plan.levels(alloc, top, units, &mut levels)?;
    let leaves = places_of(alloc, ids, &found)?;
    Ok((levels, leaves))
}

impl Structure {
    /// The programme of these links between units and of ids to tops, with these ids and tops, and the rest from the structure.
    fn made(
        &self,
        alloc: Global,
        links: &ByKey<Link>,
        ends: &ByKey<Link>,
        ids: Vec<u32>,
        tops: Vec<u32>,
    ) -> Result<Programme, AllocError>
        requires fit { HasFit (kept_by self.now) links.now ends.now ids.items tops.items }
        ensures value { IfOk result (λ made. (tree : Tree) → Fits tree (kept_by self.now) links.now ends.now ids.items tops.items → IsProgramme tree made) }
    {
        let top = self.top_level;
        let layers = layers(alloc, &self.layers, top, &tops)?;
        let terms = terms(alloc, &self.terms, top, &tops, &layers)?;
        let beneath = beneath(alloc, ends, &tops)?;
        let plan = Plan::new(links, &self.terms, &self.tivs);
        let (levels, leaves) = levels_of(alloc, &plan, top, &tops, &ids)?;
        let made = Programme::new(ids, leaves, levels, tops, layers, terms, beneath);
        Ok(made)
    }

    /// The programme of the units that the losses of some ids come to. An error is want of memory.
    pub fn programme(&self, alloc: Global, ids: &[u32]) -> Result<Programme, AllocError>
        requires structure { HasStructure (kept_by self.now) }
        ensures value { IfOk result (λ made. (tree : Tree) → IsStructure tree (kept_by self.now) → IsProgramme (struck tree ids.now) made) }
    {
        let (rows, ends) = climb(alloc, &self.next, self.top_level, ids)?;
        let reached = reached(alloc, &ends)?;
        let links = by_key(rows)?;
        let by_top = by_key(ends)?;
        let taken = taken(alloc, &self.next, ids)?;
        self.made(alloc, &links, &by_top, taken, reached)
    }
}
