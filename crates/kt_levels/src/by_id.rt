//! Lanes of units, by rising id; and amounts of units given down a programme to the ids.
//! The rule: docs/FINANCIAL_MODULE.md, "Allocation".
ghost use Rattle.std.specs.Prelude.{◌≡◌, true, false, ℕ, ◌+◌, ◌-◌, ◌≤◌, ◌<◌, ◌^◌, ◌∷◌, [], length, map, slice_index, slice_index_or, All, IfOk, IfSome, OnErr, OnOk};
ghost use Rattle.std.specs.List.{flat_map, sum_by};
ghost use Rattle.kt_rec.specs.Rising.{IsRising};
ghost use Rattle.kt_fmtree.specs.Sharing.{part_of};
ghost use Rattle.kt_fmtree.specs.Parts.{units_at};
ghost use Rattle.kt_fmtree.specs.Placed.{levels_down, unit_parts};
ghost use Rattle.kt_lanes.specs.Lanes.{column, AreWide, AreLanes};
ghost use Rattle.kt_levels.specs.Climbed.{IsClimbed, carried_at};
ghost use Rattle.kt_lanes.specs.SideBySide.{AreBehind, BeginsWith};
ghost use Rattle.kt_levels.specs.Down.{ArePlaced, AreLevelSums, AreSumsOf, CanGiveBy, GivesAt, HasLevelRoom, given_losses, placed_at};

use crate::climbing::{Climbed, lanes_at};
use crate::down::{LevelRoom, PlacedLanes, level_by_unit, level_down, place_children, push_given};
use kt_fmtree::{Node, Programme, id_at};
use kt_lanes::{Lanes, add_by_id};
use std::alloc::{AllocError, Global};

/// What each of rising ids has of amounts of units of level 0, added unit by unit. An error is want of memory.
fn added_by_id(
    alloc: Global,
    programme: &Programme,
    ids: &[u32],
    width: usize,
    parts: &PlacedLanes,
) -> Result<Lanes, AllocError>
    requires rising { IsRising ids.now }
    requires parts { ArePlaced width parts.now }
    requires places { All (λ place. place < length programme.now.leaves) parts.now.places.items }
    requires few { (k : ℕ) → k < width → sum_by (λ part. part.amount) (placed_at k parts.now) ≤ 10 ^ 17 }
    ensures value { IfOk result (λ found. AreLanes width (length ids.now) (λ k. map (part_of (unit_parts (units_at programme.now 0) (placed_at k parts.now))) ids.now) found) }
{
    let mut found = Lanes::zeros(alloc, ids.len(), width)?;
    for (near, place) in parts.places.iter().enumerate() {
        add_by_id(
            ids,
            &mut found,
            near,
            id_at(programme, *place),
            parts.lanes.lane(near),
        );
    }
    Ok(found)
}

/// Puts what each of rising ids has of amounts of units of level 0 behind other lanes, id by id. An error is want of memory.
fn push_added(
    alloc: Global,
    programme: &Programme,
    ids: &[u32],
    width: usize,
    parts: &PlacedLanes,
    out: &mut Lanes,
) -> Result<(), AllocError>
    requires rising { IsRising ids.now }
    requires parts { ArePlaced width parts.now }
    requires places { All (λ place. place < length programme.now.leaves) parts.now.places.items }
    requires few { (k : ℕ) → k < width → sum_by (λ part. part.amount) (placed_at k parts.now) ≤ 10 ^ 17 }
    requires out { AreWide width out.old }
    ensures value { OnOk result (AreBehind width (length ids.now) (λ k. map (part_of (unit_parts (units_at programme.now 0) (placed_at k parts.now))) ids.now) out.old out.new) }
    ensures kept { OnErr result (BeginsWith out.old out.new) }
{
    let found = added_by_id(alloc, programme, ids, width, parts)?;
    out.append(width, &found)
}

/// Whether the units in places of level 0 are these ids, in their order.
fn are_in_order(programme: &Programme, ids: &[u32], places: &[usize]) -> bool
    requires places { All (λ place. place < length programme.now.leaves) places.now }
    ensures value { result ≡ true → map (slice_index (units_at programme.now 0)) places.now ≡ ids.now }
{
    if places.len() != ids.len() {
        return false;
    }
    for at in 0..places.len() {
        if id_at(programme, places[at]) != ids[at] {
            return false;
        }
    }
    true
}

/// Puts what amounts of units give to rising ids, the units below them, behind other lanes, id by id. What the ids below each have in all
/// may be known. An error is want of memory.
fn push_by_id(
    alloc: Global,
    programme: &Programme,
    ids: &[u32],
    width: usize,
    nodes: &[Node],
    below: &Lanes,
    sums: Option<&[u64]>,
    room: &mut LevelRoom,
    out: &mut Lanes,
) -> Result<(), AllocError>
    requires rising { IsRising ids.now }
    requires can { CanGiveBy width nodes.now below.now room.old.parts }
    requires sums { IfSome sums (λ all. AreSumsOf width nodes.now below.now room.old.parts.places.items all.now) }
    requires leaves { length below.now ≡ length programme.now.leaves }
    requires few { (k : ℕ) → k < width → sum_by (λ part. part.amount) (flat_map (given_losses nodes.now (column k below.now)) (placed_at k room.old.parts)) ≤ 10 ^ 17 }
    requires room { HasLevelRoom width room.old }
    requires out { AreWide width out.old }
    ensures room { OnOk result (HasLevelRoom width room.new) }
    ensures value { OnOk result (AreBehind width (length ids.now) (λ k. map (part_of (unit_parts (units_at programme.now 0) (flat_map (given_losses nodes.now (column k below.now)) (placed_at k room.old.parts)))) ids.now) out.old out.new) }
    ensures kept { OnErr result (BeginsWith out.old out.new) }
    ensures kept_room { OnErr result (HasLevelRoom width room.new) }
{
    place_children(nodes, below, &room.parts.places, &mut room.given.places)?;
    if are_in_order(programme, ids, &room.given.places) {
        return push_given(nodes, width, below, sums, &mut room.room, &room.parts, out);
    }
    level_by_unit(
        nodes,
        width,
        below,
        sums,
        &mut room.room,
        &room.parts,
        &mut room.given,
    )?;
    push_added(alloc, programme, ids, width, &room.given, out)
}

/// Gives amounts of the units of a level down to rising ids, level by level, and puts what these have behind other lanes, id by id. What
/// the children of each of the units have in all may be known. An error is want of memory.
pub(crate) fn ids_down(
    alloc: Global,
    programme: &Programme,
    lanes: &Lanes,
    climbed: &Climbed,
    ids: &[u32],
    level: usize,
    sums: Option<&[u64]>,
    room: &mut LevelRoom,
    out: &mut Lanes,
) -> Result<(), AllocError>
    requires climbed { IsClimbed programme.now lanes.now climbed.now }
    requires rising { IsRising ids.now }
    requires some { 1 ≤ level }
    requires gives { GivesAt programme.now lanes.now climbed.now.width level room.old }
    requires sums { IfSome sums (λ all. AreLevelSums programme.now lanes.now climbed.now.width (level - 1) room.old.parts.places.items all.now) }
    requires out { AreWide climbed.now.width out.old }
    ensures room { OnOk result (HasLevelRoom climbed.now.width room.new) }
    ensures value { OnOk result (AreBehind climbed.now.width (length ids.now) (λ k. map (part_of (unit_parts (units_at programme.now 0) (levels_down false programme.now.levels (carried_at programme.now lanes.now k).rows level (placed_at k room.old.parts)))) ids.now) out.old out.new) }
    ensures kept { OnErr result (BeginsWith out.old out.new) }
    ensures kept_room { OnErr result (HasLevelRoom climbed.now.width room.new) }
{
    programme.is_of_a_tree();
    let next = level - 1;
    let width = climbed.width;
    let below = lanes_at(lanes, &climbed.levels, next);
    let nodes = programme.nodes_above(next);
    if next == 0 {
        push_by_id(alloc, programme, ids, width, nodes, below, sums, room, out)?;
        return Ok(());
    }
    level_down(nodes, width, below, sums, room)?;
    ids_down(alloc, programme, lanes, climbed, ids, next, None, room, out)?;
    Ok(())
}
