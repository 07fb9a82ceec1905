//! Lanes carried up a programme, level by level.
//! The rules: docs/FINANCIAL_MODULE.md, "Levels".
ghost use Rattle.std.specs.Prelude.{◌≡◌, ◌+◌, ◌≤◌, ◌<◌, ◌^◌, ℕ, [], true, length, map, All, IfOk, OnOk, slice_index, slice_index_or};
ghost use Rattle.std.specs.List.{range_with_len, sum};
ghost use Rattle.kt_rules.specs.LossAlone.{loss_after};
ghost use Rattle.kt_rules.specs.Profiles.{IsProfile};
ghost use Rattle.kt_fmtree.specs.Parts.{units_at};
ghost use Rattle.kt_lanes.specs.Lanes.{column, AreWide, AreLanes, IsLane};
ghost use Rattle.kt_levels.specs.Units.{CanTake, child_losses, unit_loss};
ghost use Rattle.kt_levels.specs.Climbed.{HasPlainUnits, AreLevel, AreLosses, IsClimbed, leaf_lanes, level_lanes};
ghost use Rattle.kt_levels.specs.ClimbedLaws.{HasLevels};

use kt_fmtree::{Node, Programme};
use kt_lanes::{Lanes, no_amounts, sum_lanes};
use kt_rules::{Profile, apply_each};
use std::alloc::{AllocError, Global};

/// The lanes of level 0.
#[derive(Drop)]
pub enum Leaves {
    /// Those of the ids by rising number, as they stand.
    Ids,
    /// Lanes of its own.
    Own(Lanes),
}

/// Of each level below the top level of a programme the lanes of its units, in the order of the tree: the losses in cents that they
/// carry.
#[derive(Drop)]
pub struct Levels {
    /// Those of level 0.
    pub leaves: Leaves,
    /// Those of the levels above it, from level 1 up.
    pub rows: Vec<Lanes>,
}

/// The lanes of the units of a programme, carried up from those of the ids.
#[derive(Drop)]
pub struct Climbed {
    /// How many sidx a lane has.
    pub width: usize,
    /// The lanes of each level below the top level.
    pub levels: Levels,
}

/// Puts the losses of the children of a unit, added sidx by sidx, in the place of what a lane has.
pub(crate) fn add_children(node: &Node, below: &Lanes, lane: &mut [u64])
    requires can { CanTake (length lane.old) below.now node.now }
    requires wide { AreWide (length lane.old) below.now }
    ensures value { IsLane (length lane.old) (λ k. sum (child_losses (column k below.now) node.now)) lane.new }
{
    sum_lanes(below, node.start, node.width, lane);
}

/// What a profile leaves of each loss of a lane.
pub(crate) fn apply_lane(profile: &Profile, tiv: u64, lane: &mut [u64])
    requires profile { IsProfile profile.now }
    requires value { tiv ≤ 10 ^ 14 }
    requires few { (k : ℕ) → k < length lane.old → slice_index lane.old k ≤ 10 ^ 16 }
    ensures value { IsLane (length lane.old) (λ k. loss_after profile.now tiv (slice_index lane.old k)) lane.new }
{
    apply_each(profile, tiv, lane);
}

/// Puts what a unit carries at each sidx in the place of what a lane has.
fn take_unit(node: &Node, below: &Lanes, lane: &mut [u64])
    requires can { CanTake (length lane.old) below.now node.now }
    requires wide { AreWide (length lane.old) below.now }
    ensures value { IsLane (length lane.old) (λ k. unit_loss (column k below.now) node.now) lane.new }
{
    add_children(node, below, lane);
    apply_lane(&node.profile, node.tiv, lane);
}

/// What the units of a level carry at each sidx, from what those of the level below do. An error is want of memory.
fn unit_lanes(
    alloc: Global,
    nodes: &[Node],
    width: usize,
    below: &Lanes,
) -> Result<Lanes, AllocError>
    requires can { All (CanTake width below.now) nodes.now }
    requires wide { AreWide width below.now }
    ensures value { IfOk result (λ lanes. AreLanes width (length nodes.now) (λ k. map (unit_loss (column k below.now)) nodes.now) lanes) }
{
    let mut lane = no_amounts(alloc, width)?;
    let mut lanes = Lanes::with_room(alloc, nodes.len(), width)?;
    for node in nodes {
        take_unit(node, below, &mut lane);
        lanes.push(&lane)?;
    }
    Ok(lanes)
}

/// The lanes in some places. An error is want of memory.
pub(crate) fn lanes_in(
    alloc: Global,
    width: usize,
    places: &[usize],
    lanes: &Lanes,
) -> Result<Lanes, AllocError>
    requires places { All (λ place. place < length lanes.now) places.now }
    requires wide { AreWide width lanes.now }
    ensures value { IfOk result (λ found. AreLanes width (length places.now) (λ k. map (slice_index (column k lanes.now)) places.now) found) }
{
    let mut found = Lanes::with_room(alloc, places.len(), width)?;
    for place in places {
        found.push(lanes.lane(*place))?;
    }
    Ok(found)
}

/// Whether places are so many, from 0 up.
pub fn are_in_turn(places: &[usize], count: usize) -> bool
    ensures value { result ≡ true → places.now ≡ range_with_len 0 count }
{
    if places.len() != count {
        return false;
    }
    for at in 0..places.len() {
        if places[at] != at {
            return false;
        }
    }
    true
}

/// The lanes of level 0: those of the ids in its places. An error is want of memory.
fn leaves_of(
    alloc: Global,
    width: usize,
    places: &[usize],
    lanes: &Lanes,
) -> Result<Leaves, AllocError>
    requires places { All (λ place. place < length lanes.now) places.now }
    requires wide { AreWide width lanes.now }
    ensures value { IfOk result (λ leaves. AreLanes width (length places.now) (λ k. map (slice_index (column k lanes.now)) places.now) (leaf_lanes lanes.now leaves)) }
{
    if are_in_turn(places, lanes.len()) {
        return Ok(Leaves::Ids);
    }
    let own = lanes_in(alloc, width, places, lanes)?;
    Ok(Leaves::Own(own))
}

/// The lanes of level 0, where those of the ids are these.
fn leaf_lanes<'a>(lanes: &'a Lanes, leaves: &'a Leaves) -> &'a Lanes
    ensures value { result.now ≡ leaf_lanes lanes.now leaves.now }
{
    match leaves {
        Leaves::Ids => lanes,
        Leaves::Own(own) => own,
    }
}

/// The lanes of a level, where those of the ids are these.
pub(crate) fn lanes_at<'a>(lanes: &'a Lanes, levels: &'a Levels, level: usize) -> &'a Lanes
    requires { level ≤ length levels.now.rows.items }
    ensures value { result.now ≡ level_lanes lanes.now levels.now level }
{
    if level == 0 {
        return leaf_lanes(lanes, &levels.leaves);
    }
    &levels.rows[level - 1]
}

/// The lanes of the next level.
fn next_lanes(
    alloc: Global,
    programme: &Programme,
    width: usize,
    lanes: &Lanes,
    level: usize,
    below: &Lanes,
) -> Result<Lanes, AllocError>
    requires losses { AreLosses programme.now width lanes.now }
    requires plain { HasPlainUnits programme.now }
    requires level { level < length programme.now.levels }
    requires below { AreLevel programme.now lanes.now width level below.now }
    ensures value { IfOk result (λ row. AreLevel programme.now lanes.now width (level + 1) row) }
{
    programme.is_of_a_tree();
    let row = unit_lanes(alloc, programme.nodes_above(level), width, below)?;
    Ok(row)
}

/// Puts the lanes of a level behind those of all levels below it. An error is want of memory.
fn push_level(
    alloc: Global,
    programme: &Programme,
    width: usize,
    lanes: &Lanes,
    level: usize,
    levels: &mut Levels,
) -> Result<(), AllocError>
    requires losses { AreLosses programme.now width lanes.now }
    requires plain { HasPlainUnits programme.now }
    requires level { level < length programme.now.levels }
    requires levels { HasLevels programme.now lanes.now width level levels.old }
    ensures levels { OnOk result (HasLevels programme.now lanes.now width (level + 1) levels.new) }
{
    let below = lanes_at(lanes, levels, level - 1);
    let row = next_lanes(alloc, programme, width, lanes, level - 1, below)?;
    levels.rows.push(row)?;
    Ok(())
}

/// The losses of units of a programme, carried up from lanes of the ids by rising number, of so many sidx each. The losses of
/// all ids add to at most 10^16 cents at each sidx, and the rules see the losses alone. An error is want of memory.
pub fn climb(
    alloc: Global,
    programme: &Programme,
    width: usize,
    lanes: &Lanes,
) -> Result<Climbed, AllocError>
    requires losses { AreLosses programme.now width lanes.now }
    requires plain { HasPlainUnits programme.now }
    ensures width { IfOk result (λ climbed. climbed.width ≡ width) }
    ensures value { IfOk result (IsClimbed programme.now lanes.now) }
{
    programme.is_of_a_tree();
    let leaves = leaves_of(alloc, width, programme.leaves(), lanes)?;
    let rows = Vec::with_capacity(alloc, programme.depth())?;
    let mut levels = Levels { leaves, rows };
    for level in 1..programme.depth() {
        push_level(alloc, programme, width, lanes, level, &mut levels)?;
    }
    Ok(Climbed { width, levels })
}
