//! What is left of losses by lanes where amounts are taken from them.
//! The rule: docs/FINANCIAL_MODULE.md, "Reinsurance".
ghost use Rattle.std.specs.Prelude.{◌≡◌, ◌≤◌, length, All, IfOk};
ghost use Rattle.std.specs.List.{filter_map};
ghost use Rattle.kt_lanes.specs.Lanes.{AreWide};
ghost use Rattle.kt_runs.specs.Less.{IsPlaceIn, left_record, records_less};
ghost use Rattle.kt_runs.specs.LossLanes.{AreApart, HaveLanes, lane_records};

use crate::heads::LossHead;
use crate::loss_lanes::{LossLanes, has_loss};
use kt_lanes::Lanes;
use std::alloc::{AllocError, Global};

/// The heads of lanes that have a loss, without their deviations. An error is want of memory.
fn left_heads(alloc: Global, heads: &[LossHead], lanes: &Lanes) -> Result<Vec<LossHead>, AllocError>
    requires have { HaveLanes lanes.now heads.now }
    ensures have { IfOk result (λ left. HaveLanes lanes.now left.items) }
    ensures value { IfOk result (λ left. lane_records left.items lanes.now ≡ filter_map (left_record lanes.now) heads.now) }
{
    let mut left = Vec::with_capacity(alloc, heads.len())?;
    for head in heads {
        if has_loss(lanes.lane(head.place)) {
            left.push(LossHead {
                event: head.event,
                id: head.id,
                deviation: 0,
                place: head.place,
            })?;
        }
    }
    Ok(left)
}

/// What is left of the records of heads that have a lane each, where amounts in cents are taken from them. An error is want of memory.
pub(crate) fn lessened(
    alloc: Global,
    rows: usize,
    heads: &[LossHead],
    lanes: Lanes,
    taken: &Lanes,
    places: &[Option<usize>],
) -> Result<LossLanes, AllocError>
    requires few { rows ≤ 1001 }
    requires have { HaveLanes lanes heads.now }
    requires apart { AreApart heads.now }
    requires lanes { AreWide rows lanes }
    requires places { length places.now ≡ length heads.now }
    requires within { All (IsPlaceIn taken.now) places.now }
    requires wide { AreWide rows taken.now }
    ensures rows { IfOk result (λ made. made.rows ≡ rows) }
    ensures records { IfOk result (λ made. made.records ≡ records_less rows taken.now (lane_records heads.now lanes) places.now) }
{
    let mut left = lanes;
    for at in 0..heads.len() {
        if let Some(from) = places[at] {
            left.lessen(heads[at].place, taken.lane(from));
        }
    }
    let kept = left_heads(alloc, heads, &left)?;
    Ok(LossLanes::of(rows, kept, left))
}
