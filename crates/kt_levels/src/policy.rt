//! Policy losses by lanes, and what the ids beneath a top have of them.
//! The rules: docs/FINANCIAL_MODULE.md, "Policy losses", "Allocation".
ghost use Rattle.std.specs.Prelude.{◌≡◌, ◌⊎◌, ◌<◌, ◌≤◌, ◌^◌, ℕ, [], ◌∷◌, nat_eq, true, false, length, slice_index, slice_index_or, List, IfOk, OnErr, OnOk, Some};
ghost use Rattle.std.specs.List.{list_any};
ghost use Rattle.kt_rules.specs.LossAlone.{looks_back};
ghost use Rattle.kt_fmtree.specs.Tree.{Tree, beneath, policy_loss};
ghost use Rattle.kt_fmtree.specs.Sharing.{allocated, shared_at_once, shared_down};
ghost use Rattle.kt_fmtree.specs.Parts.{IsProgramme, Parts};
ghost use Rattle.kt_fmtree.specs.Carried.{loss_by};
ghost use Rattle.kt_lanes.specs.Lanes.{column, AreWide, IsLane};
ghost use Rattle.kt_levels.specs.Climbed.{IsClimbed};
ghost use Rattle.kt_levels.specs.Down.{ArePlaced, HasLevelRoom, placed_at};
ghost use Rattle.kt_levels.specs.Policies.{HasSums, IsPolicy, IsTopBase};
ghost use Rattle.kt_lanes.specs.SideBySide.{AreBehind, BeginsWith};

use crate::by_id::ids_down;
use crate::climbing::{Climbed, add_children, apply_lane, lanes_at, lanes_in};
use crate::down::{LevelRoom, PlacedLanes};
use kt_fmtree::{Programme, places_of};
use kt_lanes::{Lanes, no_amounts, share_lanes};
use std::alloc::{AllocError, Global};

/// The losses that come to a top: they are kept while its layers, side by side, have their turns.
#[derive(Drop)]
pub struct TopSums {
    /// The place of the top among the tops, counted from 0, where there is one.
    node: Option<u32>,
    /// What comes to it in cents, sidx by sidx.
    sums: Vec<u64>,
}

/// The losses of no top, with room for those of one at so many sidx. An error is want of memory.
pub fn no_sums(alloc: Global, width: usize) -> Result<TopSums, AllocError>
    ensures sums { IfOk result (λ sums. (parts : Parts) (lanes : List (List ℕ)) → HasSums parts lanes width sums) }
{
    let sums = no_amounts(alloc, width)?;
    Ok(TopSums { node: None, sums })
}

impl TopSums {
    /// What comes to the top in cents, sidx by sidx.
    pub fn sums(&self) -> &[u64]
        ensures value { result.now ≡ self.now.sums.items }
    {
        &self.sums
    }
}

/// Whether the losses are those that come to a top.
fn are_of(sums: &TopSums, node: u32) -> bool
    ensures of { result ≡ true → sums.now.node ≡ Some node }
{
    match sums.node {
        Some(of) => of == node,
        None => false,
    }
}

/// Puts the losses that come to a top, sidx by sidx, in the place of what a lane has.
fn take_top(programme: &Programme, lanes: &Lanes, climbed: &Climbed, node: usize, lane: &mut [u64])
    requires node { node < length programme.now.tops }
    requires climbed { IsClimbed programme.now lanes.now climbed.now }
    requires wide { length lane.old ≡ climbed.now.width }
    ensures value { IsTopBase programme.now lanes.now climbed.now.width node lane.new }
{
    programme.is_of_a_tree();
    let last = programme.depth() - 1;
    let nodes = programme.nodes_above(last);
    let below = lanes_at(lanes, &climbed.levels, last);
    add_children(&nodes[node], below, lane);
}

/// Puts the losses that come to a top in the place of those of another: where they stand already, nothing is done.
fn sum_top(programme: &Programme, lanes: &Lanes, climbed: &Climbed, node: u32, sums: &mut TopSums)
    requires node { node < length programme.now.tops }
    requires climbed { IsClimbed programme.now lanes.now climbed.now }
    requires sums { HasSums programme.now lanes.now climbed.now.width sums.old }
    ensures sums { HasSums programme.now lanes.now climbed.now.width sums.new }
    ensures value { IsTopBase programme.now lanes.now climbed.now.width node sums.new.sums.items }
{
    if are_of(sums, node) {
        return;
    }
    take_top(programme, lanes, climbed, node as usize, &mut sums.sums);
    sums.node = Some(node);
}

/// Puts the policy losses in cents, sidx by sidx, of a layer of the top at a place among the tops, which is counted from 0, in the
/// place of what a lane has. The rule of its terms sees the losses alone. What comes to the top is kept for its other layers, and to
/// share the policy losses out.
pub fn policy_lane(
    programme: &Programme,
    lanes: &Lanes,
    climbed: &Climbed,
    node: u32,
    layer: u32,
    sums: &mut TopSums,
    policy: &mut [u64],
)
    requires node { node < length programme.now.tops }
    requires layer { list_any (nat_eq layer) (slice_index_or programme.now.layers node []) ≡ true }
    requires climbed { IsClimbed programme.now lanes.now climbed.now }
    requires plain { (tree : Tree) → IsProgramme tree programme.now → looks_back (tree.layer_profile (slice_index tree.tops node) layer).rule ≡ false }
    requires sums { HasSums programme.now lanes.now climbed.now.width sums.old }
    requires wide { length policy.old ≡ climbed.now.width }
    ensures sums { HasSums programme.now lanes.now climbed.now.width sums.new }
    ensures top { IsTopBase programme.now lanes.now climbed.now.width node sums.new.sums.items }
    ensures value { IsPolicy programme.now lanes.now climbed.now.width node layer policy.new }
{
    programme.is_of_a_tree();
    sum_top(programme, lanes, climbed, node, sums);
    let node = node as usize;
    let terms = programme.layer_terms(node, layer);
    policy.copy_from_slice(&sums.sums);
    apply_lane(terms, programme.top_tiv(node), policy);
}

/// Puts policy losses, shared out by the ground-up losses of the ids beneath, behind other lanes.
fn shared_at_once(
    alloc: Global,
    programme: &Programme,
    lanes: &Lanes,
    climbed: &Climbed,
    node: u32,
    layer: u32,
    room: &mut LevelRoom,
    policy: &[u64],
    out: &mut Lanes,
) -> Result<(), AllocError>
    requires node { node < length programme.now.tops }
    requires climbed { IsClimbed programme.now lanes.now climbed.now }
    requires policy { IsPolicy programme.now lanes.now climbed.now.width node layer policy.now }
    requires room { HasLevelRoom climbed.now.width room.old }
    requires out { AreWide climbed.now.width out.old }
    ensures room { OnOk result (HasLevelRoom climbed.now.width room.new) }
    ensures value { OnOk result ((tree : Tree) → IsProgramme tree programme.now → AreBehind climbed.now.width (length (beneath tree (slice_index tree.tops node))) (λ k. shared_at_once tree (loss_by tree.ids (column k lanes.now)) (slice_index tree.tops node) layer) out.old out.new) }
    ensures kept { OnErr result (BeginsWith out.old out.new) }
    ensures kept_room { OnErr result (HasLevelRoom climbed.now.width room.new) }
{
    programme.is_of_a_tree();
    let places = places_of(alloc, programme.ids(), programme.beneath(node))?;
    let losses = lanes_in(alloc, climbed.width, &places, lanes)?;
    let count = losses.len();
    share_lanes(policy, &losses, 0, count, None, &mut room.room, out)
}

/// Puts the policy losses as those of a top in the place of what units have.
fn place_top(node: usize, policy: &[u64], parts: &mut PlacedLanes) -> Result<(), AllocError>
    ensures parts { OnOk result (ArePlaced (length policy.now) parts.new) }
    ensures places { OnOk result (parts.new.places.items ≡ node ∷ []) }
    ensures value { OnOk result ((k : ℕ) → placed_at k parts.new ≡ record { place = node; amount = slice_index policy.now k } ∷ []) }
{
    parts.places.clear();
    parts.lanes.clear();
    parts.places.push(node)?;
    parts.lanes.push(policy)?;
    Ok(())
}

/// Puts policy losses, shared down to the ids beneath by what was carried, behind other lanes.
fn shared_down(
    alloc: Global,
    programme: &Programme,
    lanes: &Lanes,
    climbed: &Climbed,
    node: u32,
    layer: u32,
    sums: &[u64],
    room: &mut LevelRoom,
    policy: &[u64],
    out: &mut Lanes,
) -> Result<(), AllocError>
    requires node { node < length programme.now.tops }
    requires climbed { IsClimbed programme.now lanes.now climbed.now }
    requires policy { IsPolicy programme.now lanes.now climbed.now.width node layer policy.now }
    requires sums { IsTopBase programme.now lanes.now climbed.now.width node sums.now }
    requires room { HasLevelRoom climbed.now.width room.old }
    requires out { AreWide climbed.now.width out.old }
    ensures room { OnOk result (HasLevelRoom climbed.now.width room.new) }
    ensures value { OnOk result ((tree : Tree) → IsProgramme tree programme.now → AreBehind climbed.now.width (length (beneath tree (slice_index tree.tops node))) (λ k. shared_down tree (loss_by tree.ids (column k lanes.now)) (slice_index tree.tops node) layer) out.old out.new) }
    ensures kept { OnErr result (BeginsWith out.old out.new) }
    ensures kept_room { OnErr result (HasLevelRoom climbed.now.width room.new) }
{
    programme.is_of_a_tree();
    place_top(node as usize, policy, &mut room.parts)?;
    ids_down(
        alloc,
        programme,
        lanes,
        climbed,
        programme.beneath(node),
        programme.depth(),
        Some(sums),
        room,
        out,
    )?;
    Ok(())
}

/// Puts what each id beneath a top has, by rising id and sidx by sidx, of the policy losses in cents of a layer of the top behind
/// other lanes. Rule 1 shares by the ground-up losses of the ids, rule 2 down the levels by what their units carry. The sums are what
/// comes to the top. An error is want of memory; then some of the lanes may stand behind those that were there, and the room serves for
/// other policy losses.
pub fn allocate_lanes(
    alloc: Global,
    programme: &Programme,
    lanes: &Lanes,
    climbed: &Climbed,
    node: u32,
    layer: u32,
    rule: u32,
    sums: &[u64],
    room: &mut LevelRoom,
    policy: &[u64],
    out: &mut Lanes,
) -> Result<(), AllocError>
    requires node { node < length programme.now.tops }
    requires climbed { IsClimbed programme.now lanes.now climbed.now }
    requires policy { IsPolicy programme.now lanes.now climbed.now.width node layer policy.now }
    requires rule { (rule ≡ 1) ⊎ (rule ≡ 2) }
    requires sums { IsTopBase programme.now lanes.now climbed.now.width node sums.now }
    requires room { HasLevelRoom climbed.now.width room.old }
    requires out { AreWide climbed.now.width out.old }
    ensures room { OnOk result (HasLevelRoom climbed.now.width room.new) }
    ensures value { OnOk result ((tree : Tree) → IsProgramme tree programme.now → AreBehind climbed.now.width (length (beneath tree (slice_index tree.tops node))) (λ k. allocated tree (loss_by tree.ids (column k lanes.now)) rule (slice_index tree.tops node) layer) out.old out.new) }
    ensures kept { OnErr result (BeginsWith out.old out.new) }
    ensures kept_room { OnErr result (HasLevelRoom climbed.now.width room.new) }
{
    if rule == 1 {
        shared_at_once(
            alloc, programme, lanes, climbed, node, layer, room, policy, out,
        )?;
        return Ok(());
    }
    shared_down(
        alloc, programme, lanes, climbed, node, layer, sums, room, policy, out,
    )?;
    Ok(())
}
