//! Whose the losses of lanes are, and where their lanes stand.
//! The rule: docs/FINANCIAL_MODULE.md, "Insured losses".
ghost use Rattle.std.specs.Prelude.{◌≡◌, true, ℕ, ◌<◌, length, map, slice_index_or, IfOk};
ghost use Rattle.std.specs.List.Sorted.{IsNonDecreasingBy, IsPermutation};
ghost use Rattle.kt_runs.specs.LossLanes.{AreApart, AreInTurn, HaveLanes, head_at, lane_of, no_head};

use kt_lanes::Lanes;
use std::alloc::{AllocError, Global};

/// Whose the losses of a lane are, their deviation, and where the lane stands.
#[derive(Clone, Copy)]
pub struct LossHead {
    /// The event.
    pub event: u32,
    /// The id.
    pub id: u32,
    /// The deviation in cents, which only ground-up losses have.
    pub deviation: u64,
    /// The place of the lane among lanes.
    pub place: usize,
}

/// Puts heads in the order of their ids.
pub(crate) fn sort_by_id(heads: &mut Vec<LossHead>) -> Result<(), AllocError>
    ensures permutation { IfOk result (λ _. IsPermutation heads.old.items heads.new.items) }
    ensures rising { IfOk result (λ _. IsNonDecreasingBy (λ head. head.id) heads.new.items) }
{
    heads.sort_by_key(|head| head.id)?;
    Ok(())
}

/// Whether these are the ids of heads, in their order.
pub(crate) fn are_ids(heads: &[LossHead], ids: &[u32]) -> bool
    ensures value { result ≡ true → map (λ head. head.id) heads.now ≡ ids.now }
{
    if heads.len() != ids.len() {
        return false;
    }
    for at in 0..heads.len() {
        if heads[at].id != ids[at] {
            return false;
        }
    }
    true
}

/// Whether heads have all of so many lanes, in their order.
pub(crate) fn are_in_turn(heads: &[LossHead], count: usize) -> bool
    ensures value { result ≡ true → AreInTurn count heads.now }
{
    if heads.len() != count {
        return false;
    }
    for at in 0..heads.len() {
        if heads[at].place != at {
            return false;
        }
    }
    true
}

/// Whether the lanes of heads stand in their order, and no two heads have the same.
pub(crate) fn are_apart(heads: &[LossHead]) -> bool
    ensures value { result ≡ true → AreApart heads.now }
{
    for at in 1..heads.len() {
        if heads[at].place <= heads[at - 1].place {
            return false;
        }
    }
    true
}

/// Gives heads the places of lanes that stand in their order.
pub(crate) fn put_in_turn(heads: &mut [LossHead])
    ensures many { length heads.new ≡ length heads.old }
    ensures each { (k : ℕ) → k < length heads.old → slice_index_or heads.new k no_head ≡ head_at (slice_index_or heads.old k no_head) k }
{
    for at in 0..heads.len() {
        heads[at].place = at;
    }
}

/// The lanes of heads, in the order of the heads, and no other. Where no two heads have the same lane, none is copied. An error is want of
/// memory.
pub(crate) fn turned_lanes(
    alloc: Global,
    heads: &[LossHead],
    lanes: Lanes,
) -> Result<Lanes, AllocError>
    requires have { HaveLanes lanes heads.now }
    ensures value { IfOk result (λ made. made ≡ map (lane_of lanes) heads.now) }
{
    let mut places = Vec::with_capacity(alloc, heads.len())?;
    for head in heads {
        places.push(head.place)?;
    }
    lanes.in_places(alloc, places)
}
