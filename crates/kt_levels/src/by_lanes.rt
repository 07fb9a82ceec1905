//! What layers have at all sidx of a run, by lanes: a lane has the amounts of a unit sidx by sidx.
//! The rules: docs/FINANCIAL_MODULE.md, "Allocation", "Insured losses".
ghost use Rattle.std.specs.Prelude.{◌≡◌, ◌≤◌, ◌<◌, ◌++◌, ℕ, [], ◌∷◌, List, true, length, All, IfOk, OnOk};
ghost use Rattle.std.specs.List.{AllByRecursion};
ghost use Rattle.kt_fmtree.specs.Tree.{Tree};
ghost use Rattle.kt_fmtree.specs.Carried.{loss_by};
ghost use Rattle.kt_fmtree.specs.Parts.{IsProgramme, Parts};
ghost use Rattle.kt_lanes.specs.Lanes.{AreWide, column};
ghost use Rattle.kt_levels.specs.Climbed.{IsClimbed};
ghost use Rattle.kt_levels.specs.Policies.{IsPolicy, IsTopBase};
ghost use Rattle.kt_levels.specs.Down.{HasLevelRoom};
ghost use Rattle.kt_levels.specs.declared.layers.TopLayer.{TopLayer};
ghost use Rattle.kt_levels.specs.Layers.{IsTopLayer};
ghost use Rattle.kt_levels.specs.Shares.{shares};
ghost use Rattle.kt_levels.specs.ByLanes.{AreLayers, HasLayerRoom, IsPlainLayer};

use crate::climbing::Climbed;
use crate::down::{LevelRoom, level_room_of};
use crate::layers::TopLayer;
use crate::plain::layer_looks_back;
use crate::policy::{TopSums, allocate_lanes, no_sums, policy_lane};
use kt_fmtree::{Programme, zeros};
use kt_lanes::Lanes;
use std::alloc::{AllocError, Global};

/// What layers have, sidx by sidx.
#[derive(Drop)]
pub(crate) struct LayerLanes {
    /// The lanes of the shares of all layers in cents, layer by layer.
    pub shares: Lanes,
    /// The lane of the policy losses of each layer in cents.
    pub policies: Lanes,
}

/// Whether the rules of layers see the losses alone.
pub(crate) fn are_plain(programme: &Programme, layers: &[TopLayer]) -> bool
    requires layers { AllByRecursion (IsTopLayer programme.now) layers.now }
    ensures plain { result ≡ true → All (IsPlainLayer programme.now) layers.now }
{
    for one in layers {
        if layer_looks_back(programme, one.node, one.layer) {
            return false;
        }
    }
    true
}

/// Puts what the policy losses of a layer are shared out to behind other lanes: by rule 0 they stay whole. The sums
/// are what comes to its top. An error is want of memory.
fn push_shares(
    alloc: Global,
    programme: &Programme,
    lanes: &Lanes,
    climbed: &Climbed,
    rule: u32,
    one: TopLayer,
    sums: &[u64],
    room: &mut LevelRoom,
    policies: &[u64],
    out: &mut Lanes,
) -> Result<(), AllocError>
    requires rule { rule ≤ 2 }
    requires layer { IsTopLayer programme.now one }
    requires climbed { IsClimbed programme.now lanes.now climbed.now }
    requires policies { IsPolicy programme.now lanes.now climbed.now.width one.node one.layer policies.now }
    requires sums { IsTopBase programme.now lanes.now climbed.now.width one.node sums.now }
    requires room { HasLevelRoom climbed.now.width room.old }
    requires out { AreWide climbed.now.width out.old }
    ensures room { OnOk result (HasLevelRoom climbed.now.width room.new) }
    ensures wide { OnOk result (AreWide climbed.now.width out.new) }
    ensures value { OnOk result ((tree : Tree) → IsProgramme tree programme.now → (k : ℕ) → k < climbed.now.width → column k out.new ≡ column k out.old ++ shares tree (loss_by tree.ids (column k lanes.now)) rule one.top one.layer) }
{
    programme.is_of_a_tree();
    if rule == 0 {
        out.push(policies)?;
        return Ok(());
    }
    allocate_lanes(
        alloc, programme, lanes, climbed, one.node, one.layer, rule, sums, room, policies, out,
    )?;
    Ok(())
}

/// Room for what one layer after the other has.
#[derive(Drop)]
struct LayerRoom {
    /// What comes to its top.
    sums: TopSums,
    /// What is given down from its top.
    levels: LevelRoom,
    /// Its policy losses in cents, sidx by sidx.
    policies: Vec<u64>,
}

/// Room for a layer at so many sidx, and to give what it has down to so many units of a level. An error is want of memory.
fn layer_room(alloc: Global, units: usize, width: usize) -> Result<LayerRoom, AllocError>
    ensures room { IfOk result (λ room. (parts : Parts) (lanes : List (List ℕ)) → HasLayerRoom parts lanes width room) }
{
    let sums = no_sums(alloc, width)?;
    let levels = level_room_of(alloc, units, width)?;
    let policies = zeros(alloc, width)?;
    Ok(LayerRoom {
        sums,
        levels,
        policies,
    })
}

/// Puts what a layer has behind what others have. The room is filled anew. An error is want of memory.
fn push_layer(
    alloc: Global,
    programme: &Programme,
    lanes: &Lanes,
    climbed: &Climbed,
    rule: u32,
    one: TopLayer,
    room: &mut LayerRoom,
    made: &mut LayerLanes,
) -> Result<(), AllocError>
    requires rule { rule ≤ 2 }
    requires layer { IsTopLayer programme.now one }
    requires plain { IsPlainLayer programme.now one }
    requires climbed { IsClimbed programme.now lanes.now climbed.now }
    requires shares_wide { AreWide climbed.now.width made.old.shares }
    requires policies_wide { AreWide climbed.now.width made.old.policies }
    requires room { HasLayerRoom programme.now lanes.now climbed.now.width room.old }
    ensures room { OnOk result (HasLayerRoom programme.now lanes.now climbed.now.width room.new) }
    ensures value { OnOk result ((before : List TopLayer) → AreLayers programme.now lanes.now climbed.now.width rule before made.old → AreLayers programme.now lanes.now climbed.now.width rule (before ++ one ∷ []) made.new) }
{
    policy_lane(
        programme,
        lanes,
        climbed,
        one.node,
        one.layer,
        &mut room.sums,
        &mut room.policies,
    );
    push_shares(
        alloc,
        programme,
        lanes,
        climbed,
        rule,
        one,
        room.sums.sums(),
        &mut room.levels,
        &room.policies,
        &mut made.shares,
    )?;
    made.policies.push(&room.policies)?;
    Ok(())
}

/// How many shares layers have: by rule 0 one each, and else one for each id beneath a layer's top.
#[derive(Clone, Copy, Drop)]
struct ShareCounts {
    /// All layers together.
    all: usize,
    /// The layer with the most.
    most: usize,
}

/// How many shares layers have.
fn share_counts(programme: &Programme, rule: u32, layers: &[TopLayer]) -> ShareCounts
    requires layers { AllByRecursion (IsTopLayer programme.now) layers.now }
{
    if rule == 0 {
        return ShareCounts {
            all: layers.len(),
            most: layers.len().min(1),
        };
    }
    let mut all: usize = 0;
    let mut most: usize = 0;
    for one in layers {
        let beneath = programme.beneath(one.node).len();
        all = all.saturating_add(beneath);
        most = most.max(beneath);
    }
    ShareCounts { all, most }
}

/// No layers, with room for so many shares and for what so many layers have. An error is want of memory.
fn no_layers(
    alloc: Global,
    shares: usize,
    layers: usize,
    width: usize,
) -> Result<LayerLanes, AllocError>
    ensures shares { IfOk result (λ made. made.shares ≡ []) }
    ensures policies { IfOk result (λ made. made.policies ≡ []) }
{
    let shares = Lanes::with_room(alloc, shares, width)?;
    let policies = Lanes::with_room(alloc, layers, width)?;
    Ok(LayerLanes { shares, policies })
}

/// What layers have. An error is want of memory.
pub(crate) fn layer_lanes(
    alloc: Global,
    programme: &Programme,
    lanes: &Lanes,
    climbed: &Climbed,
    rule: u32,
    layers: &[TopLayer],
) -> Result<LayerLanes, AllocError>
    requires rule { rule ≤ 2 }
    requires layers { AllByRecursion (IsTopLayer programme.now) layers.now }
    requires plain { All (IsPlainLayer programme.now) layers.now }
    requires climbed { IsClimbed programme.now lanes.now climbed.now }
    ensures value { IfOk result (λ made. AreLayers programme.now lanes.now climbed.now.width rule layers.now made) }
{
    let counts = share_counts(programme, rule, layers);
    let mut made = no_layers(alloc, counts.all, layers.len(), climbed.width)?;
    // By rule 2 alone a layer gives level by level, to no more units of one than it has ids beneath.
    let units = if rule == 2 { counts.most } else { 0 };
    let mut room = layer_room(alloc, units, climbed.width)?;
    for one in layers {
        push_layer(
            alloc, programme, lanes, climbed, rule, *one, &mut room, &mut made,
        )?;
    }
    Ok(made)
}
