//! The lanes of a round: a ring for each worker, with the worker's pass beside the end into which it sends.
//! The rule: docs/ARCHITECTURE.md, "A run of all stages".
ghost use Rattle.std.specs.Prelude.{◌≡◌, ◌+◌, ◌≤◌, [], IfOk, OnErr, OnOk};
ghost use Rattle.rtrb.specs.Ring.{received, IsPair};
ghost use Rattle.kt_part.specs.Lanes.{AreLanes, IsReady};
ghost use Rattle.kt_claims.specs.Passes.{IsFresh, IsGivenOut, IsPassOf, claims_of, left_of, workers_of};

use kt_claims::{Arm, Claims, Lane, Pass};
use rtrb::RingBuffer;
use std::alloc::{AllocError, Global};

/// The items that a lane has room for.
const ITEMS: usize = 16;

/// What the workers work with, and the ends of their lanes at which their items come out, worker by worker.
#[derive(Drop)]
pub(crate) struct Lanes<B> {
    pub(crate) arms: Vec<Arm<B>>,
    pub(crate) ends: Vec<Lane<B>>,
}

/// The lane of one worker, with the draws of one worker cut off the pass.
fn make_lane<B: Drop>(
    alloc: Global,
    claims: &Claims,
    pass: &mut Pass,
) -> Result<(Arm<B>, Lane<B>), AllocError>
    requires of { IsPassOf claims.now pass.old }
    requires left { 17 ≤ left_of pass.old }
    ensures of { OnOk result (IsPassOf claims.now pass.new) }
    ensures kept { (claims_of pass.new ≡ claims_of pass.old) × (workers_of pass.new ≡ workers_of pass.old) }
    ensures left { OnOk result (left_of pass.new + 17 ≡ left_of pass.old) }
    ensures ready { IfOk result (λ made. IsReady claims.now made.0) }
    ensures pair { IfOk result (λ made. IsPair made.0.ring made.1) }
    ensures empty { IfOk result (λ made. received made.1 ≡ []) }
{
    let (ring, end) = RingBuffer::new(alloc, ITEMS)?;
    let pass = claims.split(pass);
    Ok((Arm { pass, ring }, end))
}

/// The lanes of all workers. An error is want of memory, and nothing was claimed then.
pub(crate) fn make_lanes<B: Drop>(
    alloc: Global,
    claims: &Claims,
    pass: &mut Pass,
    workers: u32,
) -> Result<Lanes<B>, AllocError>
    requires few { workers ≤ 16 }
    requires of { IsPassOf claims.now pass.old }
    requires fresh { IsFresh workers pass.old }
    ensures given { OnOk result (IsGivenOut claims.now workers workers pass.new) }
    ensures none { OnErr result (claims_of pass.new ≡ []) }
    ensures lanes { IfOk result (λ lanes. AreLanes claims.now workers lanes.arms.items lanes.ends.items) }
{
    let mut arms = Vec::with_capacity(alloc, workers as usize)?;
    let mut ends = Vec::with_capacity(alloc, workers as usize)?;
    for _worker in 0..workers {
        let (arm, end) = make_lane(alloc, claims, pass)?;
        arms.push(arm)?;
        ends.push(end)?;
    }
    Ok(Lanes { arms, ends })
}
