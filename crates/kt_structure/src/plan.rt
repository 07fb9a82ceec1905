//! What a programme is made from: the links between units, the terms, and what coverages are worth.
//! The rule: docs/FINANCIAL_MODULE.md, "Levels".
ghost use Rattle.std.specs.Prelude.{◌≡◌, ◌+◌, ◌<◌, ◌++◌, ◌∷◌, [], length, map, IfOk, OnOk};
ghost use Rattle.std.specs.List.{flat_map};
ghost use Rattle.kt_structure.specs.Plan.{found_tiv, kids, new_node, nodes_from, build_levels, build_leaves};

use crate::links::{Link, push_linked};
use crate::terms::Terms;
use kt_fmtree::Node;
use kt_index::ByKey;
use kt_keys::UnitTable;
use std::alloc::{AllocError, Global};

/// The links between units, the terms of their layers, and what the coverages beneath each unit of a level are worth.
#[derive(Clone, Copy)]
pub(crate) struct Plan<'a> {
    pub links: &'a ByKey<Link>,
    pub terms: &'a Terms,
    pub tivs: &'a UnitTable<u64>,
}

impl<'a> Plan<'a> {
    /// The plan of these links, terms and values.
    pub(crate) fn new(
        links: &'a ByKey<Link>,
        terms: &'a Terms,
        tivs: &'a UnitTable<u64>,
    ) -> Plan<'a>
        ensures links { result.links.now ≡ links.now }
        ensures terms { result.terms.now ≡ terms.now }
        ensures tivs { result.tivs.now ≡ tivs.now }
    {
        Plan { links, terms, tivs }
    }

    /// What the distinct coverages beneath a unit of a level are worth.
    fn tiv(&self, level: u32, unit: u32) -> u64
        ensures value { result ≡ found_tiv self.now level unit }
    {
        self.tivs.of(level, unit).unwrap_or(0)
    }

    /// A unit of a level, with so many children from a place on.
    fn node(&self, level: u32, unit: u32, start: usize, width: usize) -> Node
        ensures value { result ≡ new_node self.now level unit start width }
    {
        Node {
            unit,
            start,
            width,
            tiv: self.tiv(level, unit),
            profile: self.terms.of(1, level, unit),
        }
    }

    /// Adds a unit of a level behind others, and its children behind theirs. The children are looked for first at a place, which is
    /// then that behind them.
    fn push_unit(
        &self,
        alloc: Global,
        level: u32,
        unit: u32,
        near: &mut usize,
        nodes: &mut Vec<Node>,
        below: &mut Vec<u32>,
    ) -> Result<(), AllocError>
        ensures nodes { OnOk result (nodes.new.items ≡ nodes.old.items ++ new_node self.now level unit (length below.old.items) (length (kids self.now level unit)) ∷ []) }
        ensures below { OnOk result (below.new.items ≡ below.old.items ++ kids self.now level unit) }
    {
        let start = below.len();
        let width = push_linked(alloc, self.links, level, unit, near, below)?;
        nodes.push(self.node(level, unit, start, width))?;
        Ok(())
    }

    /// The units of a level as nodes, and the units of the level below.
    fn level(
        &self,
        alloc: Global,
        level: u32,
        units: &[u32],
    ) -> Result<(Vec<Node>, Vec<u32>), AllocError>
        ensures nodes { IfOk result (λ made. made.0.items ≡ nodes_from self.now level 0 units.now) }
        ensures below { IfOk result (λ made. made.1.items ≡ flat_map (kids self.now level) units.now) }
    {
        let mut nodes = Vec::with_capacity(alloc, units.len())?;
        let mut below = Vec::with_capacity(alloc, self.links.as_slice().len())?;
        let mut near = 0;
        for unit in units {
            self.push_unit(alloc, level, *unit, &mut near, &mut nodes, &mut below)?;
        }
        Ok((nodes, below))
    }

    /// Puts the nodes of the levels from level 1 up to one with these units behind others, and gives the ids beneath, in the
    /// order of the tree.
    pub(crate) fn levels(
        &self,
        alloc: Global,
        level: u32,
        units: Vec<u32>,
        levels: &mut Vec<Vec<Node>>,
    ) -> Result<Vec<u32>, AllocError>
        ensures levels { IfOk result (λ _. map (λ nodes. nodes.items) levels.new.items ≡ map (λ nodes. nodes.items) levels.old.items ++ build_levels self.now level units.items) }
        ensures leaves { IfOk result (λ leaves. leaves.items ≡ build_leaves self.now level units.items) }
    {
        if level == 0 {
            return Ok(units);
        }
        let (nodes, below) = self.level(alloc, level, &units)?;
        let leaves = self.levels(alloc, level - 1, below, levels)?;
        levels.push(nodes)?;
        Ok(leaves)
    }
}
