//! What layers have at one sidx: their policy losses, and what they are shared out to.
//! The rule: docs/FINANCIAL_MODULE.md, "Insured losses".
ghost use Rattle.std.specs.Prelude.{◌≡◌, ◌≤◌, ℕ, [], ◌∷◌, slice_index, IfOk};
ghost use Rattle.std.specs.List.{AllByRecursion};
ghost use Rattle.kt_fmtree.specs.Tree.{Tree, policy_loss};
ghost use Rattle.kt_fmtree.specs.Carried.{AreCarried, IsCarriedBy};
ghost use Rattle.kt_fmtree.specs.Parts.{IsProgramme};
ghost use Rattle.kt_levels.specs.Shares.{shares};
ghost use Rattle.kt_levels.specs.Layers.{IsTopLayer};
ghost use Rattle.kt_levels.specs.Row.{HasRow};

use crate::layers::TopLayer;
use kt_fmtree::{Levels, Programme, allocate, zeros};
use std::alloc::{AllocError, Global};

/// What layers have at one sidx.
#[derive(Drop)]
pub(crate) struct Row {
    /// The shares of their policy losses in cents, one behind the other.
    pub shares: Vec<u64>,
    /// Their policy losses in cents.
    pub policies: Vec<u64>,
}

/// A policy loss that stays whole.
fn whole(alloc: Global, policy: u64) -> Result<Vec<u64>, AllocError>
    ensures value { IfOk result (λ made. made.items ≡ policy ∷ []) }
{
    let mut made = Vec::with_capacity(alloc, 1)?;
    made.push(policy)?;
    Ok(made)
}

/// What the policy loss of a layer is shared out to. An only id beneath its top has the whole.
fn shares_of(
    alloc: Global,
    programme: &Programme,
    levels: &Levels,
    rule: u32,
    one: TopLayer,
    policy: u64,
) -> Result<Vec<u64>, AllocError>
    requires rule { rule ≤ 2 }
    requires layer { IsTopLayer programme.now one }
    requires levels { IsCarriedBy programme.now levels.now }
    requires policy { (tree : Tree) (loss : ℕ → ℕ) → IsProgramme tree programme.now → AreCarried tree loss programme.now levels.now → policy ≡ policy_loss tree loss (slice_index tree.tops one.node) one.layer }
    ensures value { IfOk result (λ made. (tree : Tree) (loss : ℕ → ℕ) → IsProgramme tree programme.now → AreCarried tree loss programme.now levels.now → made.items ≡ shares tree loss rule one.top one.layer) }
{
    if rule == 0 {
        return whole(alloc, policy);
    }
    let ids = programme.beneath(one.node);
    if policy == 0 {
        return zeros(alloc, ids.len());
    }
    if ids.len() == 1 {
        return whole(alloc, policy);
    }
    allocate(alloc, programme, levels, one.node, one.layer, rule)
}

/// What layers have, from what is carried up to their tops.
pub(crate) fn row_of(
    alloc: Global,
    programme: &Programme,
    levels: &Levels,
    rule: u32,
    layers: &[TopLayer],
) -> Result<Row, AllocError>
    requires rule { rule ≤ 2 }
    requires layers { AllByRecursion (IsTopLayer programme.now) layers.now }
    requires levels { IsCarriedBy programme.now levels.now }
    ensures value { IfOk result (λ row. (tree : Tree) (loss : ℕ → ℕ) → IsProgramme tree programme.now → AreCarried tree loss programme.now levels.now → HasRow tree loss rule layers.now row.shares.items row.policies.items) }
{
    let mut shares = Vec::new(alloc);
    let mut policies = Vec::with_capacity(alloc, layers.len())?;
    for one in layers {
        let policy = programme.policy(levels, one.node, one.layer);
        let made = shares_of(alloc, programme, levels, rule, *one, policy)?;
        policies.push(policy)?;
        shares.extend_from_slice(&made)?;
    }
    Ok(Row { shares, policies })
}
