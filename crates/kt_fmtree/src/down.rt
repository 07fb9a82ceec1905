//! Parts that are given down a programme, level by level.
//! The rule: docs/FINANCIAL_MODULE.md, "Allocation".
ghost use Rattle.std.specs.Prelude.{◌≡◌, ◌≤◌, ◌<◌, ◌^◌, length, false, All, IfOk};
ghost use Rattle.std.specs.List.{AllByRecursion, sum_by};
ghost use Rattle.kt_fmtree.specs.Carried.{CanCarry, IsCarriedBy};
ghost use Rattle.kt_fmtree.specs.Placed.{CanShare, level_down, levels_down};

use crate::giving::push_children;
use crate::levels::Levels;
use crate::node::Node;
use crate::part::PlacedPart;
use crate::programme::Programme;
use kt_rules::Carry;
use std::alloc::{AllocError, Global};

/// How many children the units of parts have together, as far as it is counted.
fn children_of(nodes: &[Node], parts: &[PlacedPart]) -> usize
    requires places { AllByRecursion (λ part. part.place < length nodes.now) parts.now }
{
    let mut count: usize = 0;
    for part in parts {
        count = count.saturating_add(nodes[part.place].width);
    }
    count
}

/// What parts of the units of a level give to those of the level below.
fn level_down(
    alloc: Global,
    nodes: &[Node],
    below: &[Carry],
    whole: bool,
    parts: &[PlacedPart],
) -> Result<Vec<PlacedPart>, AllocError>
    requires can { All (CanCarry below.now) nodes.now }
    requires places { AllByRecursion (λ part. part.place < length nodes.now) parts.now }
    requires few { whole ≡ false → sum_by (λ part. part.amount) parts.now ≤ 10 ^ 17 }
    ensures value { IfOk result (λ given. given.items ≡ level_down whole nodes.now below.now parts.now) }
{
    let mut given = Vec::with_capacity(alloc, children_of(nodes, parts))?;
    for part in parts {
        push_children(&nodes[part.place], below, whole, part.amount, &mut given)?;
    }
    Ok(given)
}

/// What parts of the units of a level give to the ids beneath them.
pub(crate) fn levels_down(
    alloc: Global,
    programme: &Programme,
    levels: &Levels,
    whole: bool,
    level: usize,
    parts: Vec<PlacedPart>,
) -> Result<Vec<PlacedPart>, AllocError>
    requires levels { IsCarriedBy programme.now levels.now }
    requires can { CanShare programme.now whole level parts.items }
    ensures value { IfOk result (λ given. given.items ≡ levels_down whole programme.now.levels levels.now.rows level parts.items) }
{
    if level == 0 {
        return Ok(parts);
    }
    let next = level - 1;
    let given = level_down(
        alloc,
        programme.nodes_above(next),
        levels.row(next),
        whole,
        &parts,
    )?;
    levels_down(alloc, programme, levels, whole, next, given)
}
