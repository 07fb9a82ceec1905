//! Amounts of units given down by lanes, from a level to the next one below.
//! The rule: docs/FINANCIAL_MODULE.md, "Allocation".
ghost use Rattle.std.specs.Prelude.{◌≡◌, ◌+◌, ◌-◌, ◌≤◌, ◌<◌, ◌^◌, ◌++◌, ◌∷◌, [], ℕ, true, false, length, map, All, IfOk, IfSome, OnErr, OnOk, slice_index, slice_index_or};
ghost use Rattle.std.specs.List.{flat_map, range_with_len, sum};
ghost use Rattle.kt_money.specs.Sharing.{share_out};
ghost use Rattle.kt_fmtree.specs.Placed.{node_at};
ghost use Rattle.kt_lanes.specs.Lanes.{column, AreWide, IsLane};
ghost use Rattle.kt_levels.specs.Units.{CanTake, child_losses};
ghost use Rattle.kt_lanes.specs.Shares.{HasRoom};
ghost use Rattle.kt_lanes.specs.SideBySide.{AreBehind, BeginsWith};
ghost use Rattle.kt_levels.specs.Down.{ArePlaced, AreSumsOf, CanGiveBy, HasLevelRoom, amounts_of, child_places, given_losses, placed_at};

use kt_fmtree::Node;
use kt_lanes::{Lanes, Room, room_of, share_lanes};
use std::alloc::{AllocError, Global};
use std::mem::swap;

/// Amounts of units in places of their level, a lane each.
#[derive(Drop)]
pub struct PlacedLanes {
    /// The places of the units, in the order of the tree.
    pub places: Vec<usize>,
    /// Their amounts in cents, sidx by sidx.
    pub lanes: Lanes,
}

/// Room to give amounts down a programme: it is kept from layer to layer, so that no list is made for one layer or level.
#[derive(Drop)]
pub struct LevelRoom {
    /// Room to share one amount out.
    pub room: Room,
    /// What units of a level have.
    pub parts: PlacedLanes,
    /// What they give to those of the level below.
    pub given: PlacedLanes,
}

/// No amounts of units, with room for those of so many units at so many sidx. An error is want of memory.
fn no_parts(alloc: Global, count: usize, width: usize) -> Result<PlacedLanes, AllocError> {
    let places = Vec::with_capacity(alloc, count)?;
    let lanes = Lanes::with_room(alloc, count, width)?;
    Ok(PlacedLanes { places, lanes })
}

/// Room to give lanes of so many sidx down to as many units of a level as `count` says: where there are more, the room grows, and its
/// amounts are moved about in memory. An error is want of memory.
pub fn level_room_of(alloc: Global, count: usize, width: usize) -> Result<LevelRoom, AllocError>
    ensures room { IfOk result (HasLevelRoom width) }
{
    let room = room_of(alloc, width)?;
    let parts = no_parts(alloc, count, width)?;
    let given = no_parts(alloc, count, width)?;
    Ok(LevelRoom { room, parts, given })
}

/// Puts places side by side behind others.
fn push_places(start: usize, width: usize, places: &mut Vec<usize>) -> Result<(), AllocError>
    requires { start + width < 2 ^ 64 }
    ensures value { OnOk result (places.new.items ≡ places.old.items ++ range_with_len start width) }
{
    for at in 0..width {
        places.push(start + at)?;
    }
    Ok(())
}

/// Puts the places of the children of units in the place of others. They stand within so many places.
pub(crate) fn place_children(
    nodes: &[Node],
    below: &Lanes,
    parts: &[usize],
    places: &mut Vec<usize>,
) -> Result<(), AllocError>
    requires within { All (λ place. place < length nodes.now) parts.now }
    requires fits { All (λ node. node.start + node.width ≤ length below.now) nodes.now }
    ensures value { OnOk result (places.new.items ≡ flat_map (child_places nodes.now) parts.now) }
{
    let _all = below.len();
    places.clear();
    for part in parts {
        let node = &nodes[*part];
        push_places(node.start, node.width, places)?;
    }
    Ok(())
}

/// Puts what a unit gives to its children behind other lanes. What these have in all may be known.
fn push_shares_of(
    node: &Node,
    below: &Lanes,
    totals: &[u64],
    sums: Option<&[u64]>,
    room: &mut Room,
    out: &mut Lanes,
) -> Result<(), AllocError>
    requires can { CanTake (length totals.now) below.now node.now }
    requires wide { AreWide (length totals.now) below.now }
    requires backed { (k : ℕ) → k < length totals.now → slice_index totals.now k ≤ sum (child_losses (column k below.now) node.now) }
    requires sums { IfSome sums (λ all. IsLane (length totals.now) (λ k. sum (child_losses (column k below.now) node.now)) all.now) }
    requires room { HasRoom (length totals.now) room.old }
    requires out { AreWide (length totals.now) out.old }
    ensures room { HasRoom (length totals.now) room.new }
    ensures value { OnOk result (AreBehind (length totals.now) node.now.width (λ k. share_out (slice_index totals.now k) (child_losses (column k below.now) node.now)) out.old out.new) }
    ensures kept { OnErr result (BeginsWith out.old out.new) }
{
    share_lanes(totals, below, node.start, node.width, sums, room, out)?;
    Ok(())
}

/// Puts what amounts of the units of a level give to those of the level below behind other lanes, unit by unit. What the children of each
/// have in all may be known. An error is want of memory; then some of what they give may stand behind what was there.
pub(crate) fn push_given(
    nodes: &[Node],
    width: usize,
    below: &Lanes,
    sums: Option<&[u64]>,
    room: &mut Room,
    parts: &PlacedLanes,
    out: &mut Lanes,
) -> Result<(), AllocError>
    requires can { CanGiveBy width nodes.now below.now parts.now }
    requires sums { IfSome sums (λ all. AreSumsOf width nodes.now below.now parts.now.places.items all.now) }
    requires room { HasRoom width room.old }
    requires out { AreWide width out.old }
    ensures room { OnOk result (HasRoom width room.new) }
    ensures value { OnOk result (AreBehind width (length (flat_map (child_places nodes.now) parts.now.places.items)) (λ k. amounts_of (flat_map (given_losses nodes.now (column k below.now)) (placed_at k parts.now))) out.old out.new) }
    ensures kept { OnErr result (BeginsWith out.old out.new) }
    ensures kept_room { OnErr result (HasRoom width room.new) }
{
    for (at, place) in parts.places.iter().enumerate() {
        push_shares_of(&nodes[*place], below, parts.lanes.lane(at), sums, room, out)?;
    }
    Ok(())
}

/// Puts what amounts of the units of a level give to those of the level below in the place of what stood there, unit by unit, as
/// `push_given`. An error is want of memory.
pub(crate) fn level_by_unit(
    nodes: &[Node],
    width: usize,
    below: &Lanes,
    sums: Option<&[u64]>,
    room: &mut Room,
    parts: &PlacedLanes,
    given: &mut PlacedLanes,
) -> Result<(), AllocError>
    requires can { CanGiveBy width nodes.now below.now parts.now }
    requires sums { IfSome sums (λ all. AreSumsOf width nodes.now below.now parts.now.places.items all.now) }
    requires room { HasRoom width room.old }
    ensures room { OnOk result (HasRoom width room.new) }
    ensures given { OnOk result (ArePlaced width given.new) }
    ensures places { OnOk result (given.new.places.items ≡ flat_map (child_places nodes.now) parts.now.places.items) }
    ensures value { OnOk result ((k : ℕ) → k < width → placed_at k given.new ≡ flat_map (given_losses nodes.now (column k below.now)) (placed_at k parts.now)) }
    ensures kept_room { OnErr result (HasRoom width room.new) }
{
    place_children(nodes, below, &parts.places, &mut given.places)?;
    given.lanes.clear();
    push_given(nodes, width, below, sums, room, parts, &mut given.lanes)?;
    Ok(())
}

/// Whether the units in places have an only child each.
fn are_single(nodes: &[Node], places: &[usize]) -> bool
    requires places { All (λ place. place < length nodes.now) places.now }
    ensures single { result ≡ true → All (λ place. (node_at nodes.now place).width ≡ 1) places.now }
{
    for place in places {
        if nodes[*place].width != 1 {
            return false;
        }
    }
    true
}

/// Puts the places of the first children of the units in places in the place of others. An error is want of memory.
fn place_starts(nodes: &[Node], places: &[usize], starts: &mut Vec<usize>) -> Result<(), AllocError>
    requires places { All (λ place. place < length nodes.now) places.now }
    ensures value { OnOk result (starts.new.items ≡ map (λ place. (node_at nodes.now place).start) places.now) }
{
    starts.clear();
    for place in places {
        starts.push(nodes[*place].start)?;
    }
    Ok(())
}

/// Puts the places of the first children of units in the place of those of the units, and leaves the amounts as they are. An error is
/// want of memory.
fn starts_down(
    nodes: &[Node],
    parts: &mut PlacedLanes,
    given: &mut PlacedLanes,
) -> Result<(), AllocError>
    requires within { All (λ place. place < length nodes.now) parts.old.places.items }
    ensures lanes { parts.new.lanes ≡ parts.old.lanes }
    ensures value { OnOk result (parts.new.places.items ≡ map (λ place. (node_at nodes.now place).start) parts.old.places.items) }
{
    place_starts(nodes, &parts.places, &mut given.places)?;
    swap(&mut parts.places, &mut given.places);
    Ok(())
}

/// Puts what amounts of the units of a level give to those of the level below in the place of these amounts: only children have them
/// whole, as they are. What the children of each have in all may be known. An error is want of memory.
pub(crate) fn level_down(
    nodes: &[Node],
    width: usize,
    below: &Lanes,
    sums: Option<&[u64]>,
    room: &mut LevelRoom,
) -> Result<(), AllocError>
    requires can { CanGiveBy width nodes.now below.now room.old.parts }
    requires sums { IfSome sums (λ all. AreSumsOf width nodes.now below.now room.old.parts.places.items all.now) }
    requires room { HasLevelRoom width room.old }
    ensures room { OnOk result (HasLevelRoom width room.new) }
    ensures given { OnOk result (ArePlaced width room.new.parts) }
    ensures value { OnOk result ((k : ℕ) → k < width → placed_at k room.new.parts ≡ flat_map (given_losses nodes.now (column k below.now)) (placed_at k room.old.parts)) }
    ensures kept_room { OnErr result (HasLevelRoom width room.new) }
{
    if are_single(nodes, &room.parts.places) {
        return starts_down(nodes, &mut room.parts, &mut room.given);
    }
    level_by_unit(
        nodes,
        width,
        below,
        sums,
        &mut room.room,
        &room.parts,
        &mut room.given,
    )?;
    swap(&mut room.parts, &mut room.given);
    Ok(())
}
