//! Parts of ids, by rising id.
//! The rule: docs/FINANCIAL_MODULE.md, "Allocation".
ghost use Rattle.std.specs.Prelude.{◌≡◌, ℕ, ◌+◌, ◌≤◌, ◌<◌, ◌^◌, length, map, replicate, slice_index, IfOk};
ghost use Rattle.std.specs.List.{AllByRecursion, sum_by};
ghost use Rattle.kt_rec.specs.Rising.{IsRising};
ghost use Rattle.kt_fmtree.specs.Sharing.{part_of};
ghost use Rattle.kt_fmtree.specs.Parts.{units_at};
ghost use Rattle.kt_fmtree.specs.Placed.{unit_parts};
ghost use Rattle.kt_rec.specs.ById.{with_more};

use crate::part::PlacedPart;
use crate::programme::Programme;
use std::alloc::{AllocError, Global};

/// As many zeros. An error is want of memory.
pub fn zeros(alloc: Global, width: usize) -> Result<Vec<u64>, AllocError>
    ensures value { IfOk result (λ zeros. zeros.items ≡ replicate width 0) }
{
    vec![in alloc; 0; width]
}

/// The id at a place in the order of the tree, which is counted from 0.
pub fn id_at(programme: &Programme, place: usize) -> u32
    requires { place < length programme.now.leaves }
    ensures value { result ≡ slice_index (units_at programme.now 0) place }
{
    programme.is_of_a_tree();
    programme.ids()[programme.leaves()[place]]
}

/// Adds an amount to that of an id, which stands in this place.
fn add_at(ids: &[u32], amounts: &mut Vec<u64>, place: usize, id: u32, amount: u64)
    requires rising { IsRising ids.now }
    requires same { length amounts.old.items ≡ length ids.now }
    requires few { (place : ℕ) → place < length ids.now → slice_index amounts.old.items place + amount ≤ 10 ^ 17 }
    requires within { place < length ids.now }
    requires here { slice_index ids.now place ≡ id }
    ensures value { amounts.new.items ≡ with_more ids.now amounts.old.items id amount }
{
    amounts[place] += amount;
}

/// Adds an amount to that of an id, if it is among these. It is looked for in a place first: ids stand in the order of the tree
/// mostly.
fn add_to(ids: &[u32], amounts: &mut Vec<u64>, near: usize, id: u32, amount: u64)
    requires rising { IsRising ids.now }
    requires same { length amounts.old.items ≡ length ids.now }
    requires few { (place : ℕ) → place < length ids.now → slice_index amounts.old.items place + amount ≤ 10 ^ 17 }
    ensures value { amounts.new.items ≡ with_more ids.now amounts.old.items id amount }
{
    if near < ids.len() && ids[near] == id {
        add_at(ids, amounts, near, id, amount);
        return;
    }
    if let Ok(place) = ids.binary_search(&id) {
        add_at(ids, amounts, place, id, amount);
    }
}

/// What each of rising ids has of parts.
pub(crate) fn parts_by_id(
    alloc: Global,
    programme: &Programme,
    ids: &[u32],
    parts: &[PlacedPart],
) -> Result<Vec<u64>, AllocError>
    requires rising { IsRising ids.now }
    requires places { AllByRecursion (λ part. part.place < length programme.now.leaves) parts.now }
    requires few { sum_by (λ part. part.amount) parts.now ≤ 10 ^ 17 }
    ensures value { IfOk result (λ amounts. amounts.items ≡ map (part_of (unit_parts (units_at programme.now 0) parts.now)) ids.now) }
{
    let mut amounts = zeros(alloc, ids.len())?;
    for (near, part) in parts.iter().enumerate() {
        add_to(
            ids,
            &mut amounts,
            near,
            id_at(programme, part.place),
            part.amount,
        );
    }
    Ok(amounts)
}
