//! Lanes of rising ids: amounts are added to that of an id.
//! The rule: docs/FINANCIAL_MODULE.md, "Allocation".
ghost use Rattle.std.specs.Prelude.{◌≡◌, ℕ, ◌+◌, ◌<◌, ◌^◌, length, slice_index};
ghost use Rattle.kt_rec.specs.ById.{with_more};
ghost use Rattle.kt_rec.specs.Rising.{IsRising};
ghost use Rattle.kt_lanes.specs.Lanes.{column, AreWide, AreLanes};

use crate::amounts::{Amounts, OneLane};
use crate::lanes::Lanes;

/// Adds amounts to the lane of an id, which stands in this place.
fn add_at<A: Amounts>(ids: &[u32], found: &mut Lanes, place: usize, id: u32, more: &A)
    requires rising { IsRising ids.now }
    requires same { length found.old ≡ length ids.now }
    requires good { A.IsGood more.now }
    requires wide { AreWide (A.width more.now) found.old }
    requires few { (k place : ℕ) → k < A.width more.now → place < length ids.now → slice_index (column k found.old) place + A.amount more.now k < 2 ^ 64 }
    requires within { place < length ids.now }
    requires here { slice_index ids.now place ≡ id }
    ensures value { AreLanes (A.width more.now) (length ids.now) (λ k. with_more ids.now (column k found.old) id (A.amount more.now k)) found.new }
{
    found.add_amounts(place, more);
}

/// Adds amounts in cents to the lane of an id, if it is among these. It is looked for in a place first: ids stand in the order of the
/// tree mostly.
pub fn add_amounts_by_id<A: Amounts>(ids: &[u32], found: &mut Lanes, near: usize, id: u32, more: &A)
    requires rising { IsRising ids.now }
    requires same { length found.old ≡ length ids.now }
    requires good { A.IsGood more.now }
    requires wide { AreWide (A.width more.now) found.old }
    requires few { (k place : ℕ) → k < A.width more.now → place < length ids.now → slice_index (column k found.old) place + A.amount more.now k < 2 ^ 64 }
    ensures value { AreLanes (A.width more.now) (length ids.now) (λ k. with_more ids.now (column k found.old) id (A.amount more.now k)) found.new }
{
    if near < ids.len() && ids[near] == id {
        add_at(ids, found, near, id, more);
        return;
    }
    if let Ok(place) = ids.binary_search(&id) {
        add_at(ids, found, place, id, more);
    }
}

/// Adds a lane to that of an id, if it is among these. It is looked for in a place first: ids stand in the order of the tree
/// mostly.
pub fn add_by_id(ids: &[u32], found: &mut Lanes, near: usize, id: u32, lane: &[u64])
    requires rising { IsRising ids.now }
    requires same { length found.old ≡ length ids.now }
    requires wide { AreWide (length lane.now) found.old }
    requires few { (k place : ℕ) → k < length lane.now → place < length ids.now → slice_index (column k found.old) place + slice_index lane.now k < 2 ^ 64 }
    ensures value { AreLanes (length lane.now) (length ids.now) (λ k. with_more ids.now (column k found.old) id (slice_index lane.now k)) found.new }
{
    add_amounts_by_id(ids, found, near, id, &OneLane { lane });
}
