//! After the workers have ended: their passes are joined, their lanes are drained, and their blocks are folded in the order of their
//! numbers.
//! The rule: docs/ARCHITECTURE.md, "A run of all stages".
ghost use Rattle.std.specs.Prelude.{◌<◌, ◌≤◌, ℕ, List};
ghost use Rattle.kt_claims.specs.Arrivals.{IsMade};
ghost use Rattle.kt_part.specs.Claimed.{HasClaimed};
ghost use Rattle.kt_part.specs.Folding.{RoundEnds};
ghost use Rattle.kt_part.specs.Gathering.{AreGathered, AreHeld};

use crate::fold::Fold;
use crate::lanes::Lanes;
use crate::merger::drain;
use crate::round::RoundStop;
use crate::work::Work;
use kt_claims::{Arm, Claims, Inbox, Pass, Reorder};

/// Gathers the claims and the items of all workers. What was made for each number of the round is held then. The contract alone reads the work.
pub(crate) fn gather<W: Work>(
    claims: &Claims,
    pass: &mut Pass,
    _work: &W,
    count: u32,
    workers: u32,
    lanes: Lanes<W::Block>,
    inbox: Inbox<W::Block>,
) -> Reorder<Option<W::Block>>
    requires few { count ≤ 16 }
    requires some { 1 ≤ workers }
    requires begun { AreGathered (IsMade (W.gives _work.now) (W.lacks _work.now)) count claims.now workers lanes.arms.items lanes.ends.items pass.old inbox 0 }
    ensures claimed { HasClaimed workers count pass.new }
    ensures held { AreHeld (IsMade (W.gives _work.now) (W.lacks _work.now)) count result }
{
    let Lanes { mut arms, mut ends } = lanes;
    let mut inbox = inbox;
    for _worker in 0..workers {
        let Some(arm) = arms.pop() else {
            unreachable!()
        };
        let Some(mut end) = ends.pop() else {
            unreachable!()
        };
        let Arm {
            pass: theirs,
            mut ring,
        } = arm;
        claims.join(pass, theirs);
        drain(&mut inbox, &mut ring, &mut end);
    }
    let Inbox {
        reorder,
        is_spoiled,
        arrived: _,
    } = inbox;
    if is_spoiled {
        unreachable!()
    }
    reorder
}

/// Folds the blocks that are held in the order of their numbers. The contract alone reads the work.
pub(crate) fn fold_held<W: Work, F: Fold<W::Block>>(
    _work: &W,
    reorder: &mut Reorder<Option<W::Block>>,
    fold: &mut F,
    count: u32,
) -> Result<(), RoundStop<F::Stop>>
    requires held { AreHeld (IsMade (W.gives _work.now) (W.lacks _work.now)) count reorder.old }
    requires fits { (k : ℕ) (block : W.Block) → k < count → W.gives _work.now k block → F.fits fold.old block }
    ensures round { (start : F.Start) (before : List W.Block) → F.stands start fold.old before → RoundEnds (W.gives _work.now) (λ k. (k < count) × W.lacks _work.now k) (F.stands start fold.new) (F.stopped start fold.new) before count result }
    ensures fits { (block : W.Block) → F.fits fold.old block → F.fits fold.new block }
{
    for k in 0..count {
        let Some(held) = reorder.next() else {
            unreachable!()
        };
        let Some(block) = held else {
            return Err(RoundStop::OutOfMemory);
        };
        if let Err(stop) = fold.take(k, block) {
            return Err(RoundStop::Fold { k, stop });
        }
    }
    Ok(())
}
