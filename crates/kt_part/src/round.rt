//! A round: blocks are made for the numbers from 0 on, and taken in order.
//! The rule: docs/ARCHITECTURE.md, "A run of all stages".
ghost use Rattle.std.specs.Prelude.{◌<◌, ◌≤◌, ℕ, All, List, length};
ghost use Rattle.std.specs.Thread.{IsSync, IsSend};
ghost use Rattle.kt_claims.specs.Arrivals.{HasCome, IsMade, all_received};
ghost use Rattle.kt_part.specs.Claimed.{ClaimsAfter, WantsMemory};
ghost use Rattle.kt_part.specs.Folding.{RoundEnds};
ghost use Rattle.kt_part.specs.Lanes.{AreSame, HaveWorked, IsReady};
ghost use Rattle.kt_claims.specs.Passes.{IsFresh, IsPassOf};

use crate::arm::run_last;
use crate::fold::Fold;
use crate::gather::{fold_held, gather};
use crate::lanes::make_lanes;
use crate::merger::merge;
use crate::work::Work;
use kt_claims::{Arm, Claims, Inbox, Lane, Pass, Reorder};
use std::alloc::Global;
use std::thread::{Threads, join_mut};

/// Why a round ended before its last block.
#[derive(Drop)]
pub enum RoundStop<S> {
    /// The fold stopped at the block of a number, the first that it refused.
    Fold {
        /// The number.
        k: u32,
        /// Why it stopped.
        stop: S,
    },
    /// Want of memory: for a block, or for what a round needs before its first block.
    OutOfMemory,
}

/// Some workers, until all have ended: the last is the calling thread, whose memory is at hand, each other one has a thread of its own
/// where one can be made. The calling thread makes all threads, one after the other, before it works.
#[cycle(workers)]
fn run_all<R: Threads + Sync, W: Work + Sync>(
    rt: &R,
    claims: &Claims,
    work: &W,
    count: u32,
    arms: &mut [Arm<W::Block>],
)
    requires few { count ≤ 16 }
    requires most { count ≤ W.most work.now }
    requires ready { All (IsReady claims.now) arms.old }
    ensures { HaveWorked claims.now (IsMade (W.gives work.now) (W.lacks work.now)) count arms.old arms.new }
{
    if arms.len() <= 1 {
        run_last(claims, work, count, arms);
        return;
    }
    let (front, others) = arms.split_at_mut(1);
    first_beside(rt, claims, work, count, front, others);
}

/// The first worker in a thread of its own where one can be made, beside the others.
#[cycle(workers)]
fn first_beside<R: Threads + Sync, W: Work + Sync>(
    rt: &R,
    claims: &Claims,
    work: &W,
    count: u32,
    front: &mut [Arm<W::Block>],
    others: &mut [Arm<W::Block>],
)
    requires few { count ≤ 16 }
    requires most { count ≤ W.most work.now }
    requires one { length front.old ≤ 1 }
    requires first { All (IsReady claims.now) front.old }
    requires ready { All (IsReady claims.now) others.old }
    ensures first { HaveWorked claims.now (IsMade (W.gives work.now) (W.lacks work.now)) count front.old front.new }
    ensures worked { HaveWorked claims.now (IsMade (W.gives work.now) (W.lacks work.now)) count others.old others.new }
{
    let mut rest = ||
        requires { IsSync R.row × IsSync W.row × IsSend W.Block.row × (count ≤ 16) × (count ≤ W.most work.now) × All (IsReady claims.now) others.now }
        ensures { HaveWorked claims.entry.now (IsMade (W.gives work.entry.now) (W.lacks work.entry.now)) count others.entry.now others.exit.now }
    { run_all(rt, claims, work, count, others) };
    let mut first = ||
        requires { IsSync W.row × IsSend W.Block.row × (count ≤ 16) × (count ≤ W.most work.now) × (length front.now ≤ 1) × All (IsReady claims.now) front.now }
        ensures { HaveWorked claims.entry.now (IsMade (W.gives work.entry.now) (W.lacks work.entry.now)) count front.entry.now front.exit.now }
    { run_last(claims, work, count, front) };
    join_mut(rt, &mut first, &mut rest);
}

/// The workers beside the merger, until all have ended. The merger, which soon returns, has the thread that is made first: that one the
/// system often puts beside the calling thread, which works, and there it takes nothing from a worker.
fn run_beside<R: Threads + Sync, W: Work + Sync>(
    rt: &R,
    claims: &Claims,
    work: &W,
    count: u32,
    arms: &mut [Arm<W::Block>],
    inbox: &mut Inbox<W::Block>,
    ends: &mut [Lane<W::Block>],
)
    requires few { count ≤ 16 }
    requires most { count ≤ W.most work.now }
    requires ready { All (IsReady claims.now) arms.old }
    ensures worked { HaveWorked claims.now (IsMade (W.gives work.now) (W.lacks work.now)) count arms.old arms.new }
    ensures same { AreSame ends.old ends.new }
    ensures come { HasCome inbox.old (all_received ends.old) → HasCome inbox.new (all_received ends.new) }
{
    join_mut(
        rt,
        &mut ||
            ensures { AreSame ends.entry.now ends.exit.now × (HasCome inbox.entry.now (all_received ends.entry.now) → HasCome inbox.exit.now (all_received ends.exit.now)) }
        { merge(count, inbox, ends) },
        &mut ||
            requires { IsSync R.row × IsSync W.row × IsSend W.Block.row × (count ≤ 16) × (count ≤ W.most work.now) × All (IsReady claims.now) arms.now }
            ensures { HaveWorked claims.entry.now (IsMade (W.gives work.entry.now) (W.lacks work.entry.now)) count arms.entry.now arms.exit.now }
        { run_all(rt, claims, work, count, arms) },
    );
}

/// One round: as many workers as `workers` says claim the numbers from 0 up to but not including `count` and make their blocks, the last
/// of them on the calling thread and each other one in a thread of its own where one can be made, and the blocks are folded in the order
/// of their numbers on the calling thread. An error is the first block that the fold refused, or want of memory: for what is
/// made before the first claim, where no number was claimed and the fold is as it was, or for the first block that `work` did not make, where
/// the fold has taken all blocks before it. After all but want of memory before the first claim the pass has every draw again, and each number
/// below `count` was claimed exactly once.
pub fn run_round<R: Threads + Sync, W: Work + Sync, F: Fold<W::Block>>(
    rt: &R,
    alloc: Global,
    claims: &Claims,
    pass: &mut Pass,
    work: &W,
    fold: &mut F,
    count: u32,
    workers: u32,
) -> Result<(), RoundStop<F::Stop>>
    requires count { count ≤ 16 }
    requires most { count ≤ W.most work.now }
    requires some { 1 ≤ workers }
    requires few { workers ≤ 16 }
    requires of { IsPassOf claims.now pass.old }
    requires fresh { IsFresh workers pass.old }
    requires fits { (k : ℕ) (block : W.Block) → k < count → W.gives work.now k block → F.fits fold.old block }
    ensures round { (start : F.Start) (before : List W.Block) → F.stands start fold.old before → RoundEnds (W.gives work.now) (WantsMemory (W.lacks work.now) workers count pass.new fold.old fold.new) (F.stands start fold.new) (F.stopped start fold.new) before count result }
    ensures fits { (block : W.Block) → F.fits fold.old block → F.fits fold.new block }
    ensures claims { ClaimsAfter workers count pass.new result }
{
    let Ok(mut lanes) = make_lanes(alloc, claims, pass, workers) else {
        return Err(RoundStop::OutOfMemory);
    };
    let Ok(reorder) = Reorder::new(alloc) else {
        return Err(RoundStop::OutOfMemory);
    };
    let mut inbox = Inbox {
        reorder,
        is_spoiled: false,
        arrived: 0,
    };
    run_beside(
        rt,
        claims,
        work,
        count,
        lanes.arms.as_mut_slice(),
        &mut inbox,
        lanes.ends.as_mut_slice(),
    );
    let mut reorder = gather(claims, pass, work, count, workers, lanes, inbox);
    fold_held(work, &mut reorder, fold, count)
}
