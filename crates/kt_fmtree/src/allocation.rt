//! The policy loss of a layer, shared back to the ids beneath its top.
//! The rule: docs/FINANCIAL_MODULE.md, "Allocation".
ghost use Rattle.std.specs.Prelude.{◌≡◌, ◌⊎◌, ◌≤◌, ◌<◌, ◌^◌, ℕ, [], ◌∷◌, nat_eq, true, length, map, slice_index, slice_index_or, IfOk};
ghost use Rattle.std.specs.List.{list_any, sum};
ghost use Rattle.kt_fmtree.specs.Tree.{Tree, beneath, policy_loss};
ghost use Rattle.kt_fmtree.specs.Sharing.{part_of, id_parts, allocated, shared_at_once, shared_down};
ghost use Rattle.kt_fmtree.specs.Parts.{IsProgramme};
ghost use Rattle.kt_fmtree.specs.Carried.{AreCarried, IsCarriedBy};
ghost use Rattle.kt_fmtree.specs.Placed.{levels_down};

use crate::by_id::parts_by_id;
use crate::down::levels_down;
use crate::levels::Levels;
use crate::part::PlacedPart;
use crate::programme::Programme;
use kt_money::shares;
use std::alloc::{AllocError, Global};

/// What the ids beneath a top have: their ground-up losses, or their shares of an amount.
fn leaf_parts(
    alloc: Global,
    programme: &Programme,
    levels: &Levels,
    whole: bool,
    node: u32,
    amount: u64,
) -> Result<Vec<PlacedPart>, AllocError>
    requires node { node < length programme.now.tops }
    requires levels { IsCarriedBy programme.now levels.now }
    requires most { amount ≤ 10 ^ 16 }
    ensures value { IfOk result (λ parts. parts.items ≡ levels_down whole programme.now.levels levels.now.rows (length programme.now.levels) (record { place = node; amount = amount } ∷ [])) }
{
    let mut top = Vec::with_capacity(alloc, 1)?;
    top.push(PlacedPart {
        place: node as usize,
        amount,
    })?;
    levels_down(alloc, programme, levels, whole, programme.depth(), top)
}

/// The ground-up losses of the ids beneath a top, by rising id.
fn losses_beneath(
    alloc: Global,
    programme: &Programme,
    levels: &Levels,
    node: u32,
) -> Result<Vec<u64>, AllocError>
    requires node { node < length programme.now.tops }
    requires levels { IsCarriedBy programme.now levels.now }
    ensures value { IfOk result (λ losses. (tree : Tree) (loss : ℕ → ℕ) → IsProgramme tree programme.now → AreCarried tree loss programme.now levels.now → losses.items ≡ map loss (beneath tree (slice_index tree.tops node))) }
{
    let parts = leaf_parts(alloc, programme, levels, true, node, 0)?;
    parts_by_id(alloc, programme, programme.beneath(node), &parts)
}

/// The policy loss of a layer of a top, which is at most 10^16 cents.
fn policy_of(programme: &Programme, levels: &Levels, node: u32, layer: u32) -> u64
    requires node { node < length programme.now.tops }
    requires layer { list_any (nat_eq layer) (slice_index_or programme.now.layers node []) ≡ true }
    requires levels { IsCarriedBy programme.now levels.now }
    ensures value { (tree : Tree) (loss : ℕ → ℕ) → IsProgramme tree programme.now → AreCarried tree loss programme.now levels.now → result ≡ policy_loss tree loss (slice_index tree.tops node) layer }
    ensures few { result ≤ 10 ^ 16 }
{
    programme.policy(levels, node, layer)
}

/// A policy loss, shared out by the ground-up losses of the ids beneath.
fn shared_at_once(
    alloc: Global,
    programme: &Programme,
    levels: &Levels,
    node: u32,
    layer: u32,
) -> Result<Vec<u64>, AllocError>
    requires node { node < length programme.now.tops }
    requires layer { list_any (nat_eq layer) (slice_index_or programme.now.layers node []) ≡ true }
    requires levels { IsCarriedBy programme.now levels.now }
    ensures value { IfOk result (λ amounts. (tree : Tree) (loss : ℕ → ℕ) → IsProgramme tree programme.now → AreCarried tree loss programme.now levels.now → amounts.items ≡ shared_at_once tree loss (slice_index tree.tops node) layer) }
{
    let policy = policy_of(programme, levels, node, layer);
    let losses = losses_beneath(alloc, programme, levels, node)?;
    shares(alloc, policy, &losses)
}

/// A policy loss, shared down to the ids beneath by what was carried.
fn shared_down(
    alloc: Global,
    programme: &Programme,
    levels: &Levels,
    node: u32,
    layer: u32,
) -> Result<Vec<u64>, AllocError>
    requires node { node < length programme.now.tops }
    requires layer { list_any (nat_eq layer) (slice_index_or programme.now.layers node []) ≡ true }
    requires levels { IsCarriedBy programme.now levels.now }
    ensures value { IfOk result (λ amounts. (tree : Tree) (loss : ℕ → ℕ) → IsProgramme tree programme.now → AreCarried tree loss programme.now levels.now → amounts.items ≡ shared_down tree loss (slice_index tree.tops node) layer) }
{
    let policy = policy_of(programme, levels, node, layer);
    let parts = leaf_parts(alloc, programme, levels, false, node, policy)?;
    parts_by_id(alloc, programme, programme.beneath(node), &parts)
}

/// A policy loss, shared back by a rule.
fn shared_back(
    alloc: Global,
    programme: &Programme,
    levels: &Levels,
    node: u32,
    layer: u32,
    rule: u32,
) -> Result<Vec<u64>, AllocError>
    requires node { node < length programme.now.tops }
    requires layer { list_any (nat_eq layer) (slice_index_or programme.now.layers node []) ≡ true }
    requires levels { IsCarriedBy programme.now levels.now }
    ensures value { IfOk result (λ amounts. (tree : Tree) (loss : ℕ → ℕ) → IsProgramme tree programme.now → AreCarried tree loss programme.now levels.now → amounts.items ≡ allocated tree loss rule (slice_index tree.tops node) layer) }
{
    if rule == 1 {
        return shared_at_once(alloc, programme, levels, node, layer);
    }
    shared_down(alloc, programme, levels, node, layer)
}

/// What each id beneath a top gets, by rising id, of the policy loss in cents of a layer of the top, whose place among the tops
/// is counted from 0. Rule 1 shares by the ground-up losses of the ids, rule 2 down the levels by what their units carry. An
/// error is want of memory.
pub fn allocate(
    alloc: Global,
    programme: &Programme,
    levels: &Levels,
    node: u32,
    layer: u32,
    rule: u32,
) -> Result<Vec<u64>, AllocError>
    requires node { node < length programme.now.tops }
    requires layer { list_any (nat_eq layer) (slice_index_or programme.now.layers node []) ≡ true }
    requires levels { IsCarriedBy programme.now levels.now }
    requires rule { (rule ≡ 1) ⊎ (rule ≡ 2) }
    ensures value { IfOk result (λ amounts. (tree : Tree) (loss : ℕ → ℕ) → IsProgramme tree programme.now → AreCarried tree loss programme.now levels.now → amounts.items ≡ allocated tree loss rule (slice_index tree.tops node) layer) }
    ensures conserved { IfOk result (λ amounts. (tree : Tree) (loss : ℕ → ℕ) → IsProgramme tree programme.now → AreCarried tree loss programme.now levels.now → sum amounts.items ≡ policy_loss tree loss (slice_index tree.tops node) layer) }
    ensures none { IfOk result (λ amounts. (tree : Tree) (loss : ℕ → ℕ) → IsProgramme tree programme.now → AreCarried tree loss programme.now levels.now → (place : ℕ) → loss (slice_index (beneath tree (slice_index tree.tops node)) place) ≡ 0 → slice_index amounts.items place ≡ 0) }
{
    shared_back(alloc, programme, levels, node, layer, rule)
}
