//! Losses carried up a programme, level by level.
//! The rule: docs/FINANCIAL_MODULE.md, "Levels".
ghost use Rattle.std.specs.Prelude.{◌≡◌, ◌+◌, ◌≤◌, ◌<◌, ◌^◌, [], length, map, All, IfOk, slice_index_or};
ghost use Rattle.std.specs.List.{range_with_len, sum};
ghost use Rattle.kt_rules.specs.Amounts.{total};
ghost use Rattle.kt_fmtree.specs.Tree.{Tree, whole_loss};
ghost use Rattle.kt_fmtree.specs.Parts.{IsProgramme};
ghost use Rattle.kt_fmtree.specs.Carried.{child_sum, node_carry, leaf_row, row_from, loss_by, CanCarry, CanClimb, climbed_rows, AreCarried, IsCarriedBy};

use crate::levels::Levels;
use crate::node::Node;
use crate::programme::Programme;
use crate::sums::added;
use kt_rules::{Carry, apply};
use std::alloc::{AllocError, Global};

/// The amounts that come to a unit from its children.
fn child_sum(node: &Node, below: &[Carry]) -> Carry
    requires { CanCarry below.now node.now }
    ensures value { result ≡ child_sum below.now node.now }
    ensures few { total result ≤ 10 ^ 16 }
{
    added(&below[node.start..node.start + node.width])
}

/// What a unit carries: its terms applied to what comes to it. Of nothing they make nothing.
fn node_carry(node: &Node, below: &[Carry]) -> Carry
    requires { CanCarry below.now node.now }
    ensures value { result ≡ node_carry below.now node.now }
{
    let carry = child_sum(node, below);
    if carry.loss + carry.ded + carry.over + carry.kept == 0 {
        return carry;
    }
    apply(&node.profile, node.tiv, carry)
}

/// What the units of a level carry, from what those of the level below do.
fn carried_row(alloc: Global, nodes: &[Node], below: &[Carry]) -> Result<Vec<Carry>, AllocError>
    requires { All (CanCarry below.now) nodes.now }
    ensures value { IfOk result (λ row. row.items ≡ map (node_carry below.now) nodes.now) }
{
    let mut row = Vec::with_capacity(alloc, nodes.len())?;
    for node in nodes {
        row.push(node_carry(node, below))?;
    }
    Ok(row)
}

/// What comes to the units of the top level, from what those of the level below carry.
fn base_row(alloc: Global, nodes: &[Node], below: &[Carry]) -> Result<Vec<Carry>, AllocError>
    requires { All (CanCarry below.now) nodes.now }
    ensures value { IfOk result (λ row. row.items ≡ map (child_sum below.now) nodes.now) }
{
    let mut row = Vec::with_capacity(alloc, nodes.len())?;
    for node in nodes {
        row.push(child_sum(node, below))?;
    }
    Ok(row)
}

/// A loss of which no term has taken anything.
fn whole_loss(loss: u64) -> Carry
    ensures value { result ≡ whole_loss loss }
{
    Carry {
        loss,
        ded: 0,
        over: 0,
        kept: 0,
    }
}

/// What the ids carry in the order of the tree: their losses.
fn leaf_row(alloc: Global, leaves: &[usize], losses: &[u64]) -> Result<Vec<Carry>, AllocError>
    requires { All (λ place. place < length losses.now) leaves.now }
    ensures value { IfOk result (λ row. row.items ≡ leaf_row leaves.now losses.now) }
{
    let mut row = Vec::with_capacity(alloc, leaves.len())?;
    for place in leaves {
        row.push(whole_loss(losses[*place]))?;
    }
    Ok(row)
}

/// The nodes of a level, which is counted from 0.
fn nodes_at(levels: &[Vec<Node>], level: usize) -> &[Node]
    requires { level < length levels.now }
    ensures value { result.now ≡ slice_index_or (map (λ nodes. nodes.items) levels.now) level [] }
{
    &levels[level]
}

/// What a level carries.
fn row_at(rows: &[Vec<Carry>], level: usize) -> &[Carry]
    requires { level < length rows.now }
    ensures value { result.now ≡ slice_index_or (map (λ row. row.items) rows.now) level [] }
{
    &rows[level]
}

/// What the units of the levels up to a last one carry, from what the ids do.
fn rows_up(
    alloc: Global,
    levels: &[Vec<Node>],
    last: usize,
    leaves: Vec<Carry>,
) -> Result<Vec<Vec<Carry>>, AllocError>
    requires within { last ≤ length levels.now }
    requires can { CanClimb (map (λ nodes. nodes.items) levels.now) leaves.items last }
    ensures value { IfOk result (λ rows. map (λ row. row.items) rows.items ≡ map (row_from (map (λ nodes. nodes.items) levels.now) leaves.items) (range_with_len 0 (last + 1))) }
{
    let mut rows = Vec::new(alloc);
    rows.push(leaves)?;
    for level in 0..last {
        let row = carried_row(alloc, nodes_at(levels, level), row_at(&rows, level))?;
        rows.push(row)?;
    }
    Ok(rows)
}

/// What the units of each level carry, and what comes to each top, from one loss for each id.
fn levels_of(
    alloc: Global,
    levels: &[Vec<Node>],
    leaves: &[usize],
    losses: &[u64],
) -> Result<Levels, AllocError>
    requires some { 0 < length levels.now }
    requires places { All (λ place. place < length losses.now) leaves.now }
    requires can { CanClimb (map (λ nodes. nodes.items) levels.now) (leaf_row leaves.now losses.now) (length levels.now) }
    ensures value { IfOk result (λ carried. carried ≡ climbed_rows (map (λ nodes. nodes.items) levels.now) (leaf_row leaves.now losses.now)) }
{
    let leaves = leaf_row(alloc, leaves, losses)?;
    let last = levels.len() - 1;
    let rows = rows_up(alloc, levels, last, leaves)?;
    let bases = base_row(alloc, nodes_at(levels, last), row_at(&rows, last))?;
    Ok(Levels { rows, bases })
}

impl Programme {
    /// What the units of each level carry, and what comes to each top, from one loss in cents for each id, which add to at
    /// most 10^16. An error is want of memory.
    pub fn carry(&self, alloc: Global, losses: &[u64]) -> Result<Levels, AllocError>
        requires losses { length losses.now ≡ length self.now.ids }
        requires few { sum losses.now ≤ 10 ^ 16 }
        ensures value { IfOk result (λ levels. (tree : Tree) → IsProgramme tree self.now → AreCarried tree (loss_by tree.ids losses.now) self.now levels) }
        ensures carried { IfOk result (IsCarriedBy self.now) }
    {
        let carried = levels_of(alloc, &self.levels, &self.leaves, losses)?;
        Ok(carried)
    }
}
