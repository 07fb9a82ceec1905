//! What a worker does: it claims numbers, makes their blocks and sends them, until a number that it draws is none of the round.
//! The rule: docs/ARCHITECTURE.md, "A run of all stages".
ghost use Rattle.std.specs.Prelude.{◌≤◌, ◌<◌, All, length};
ghost use Rattle.kt_claims.specs.Arrivals.{IsMade};
ghost use Rattle.kt_part.specs.Lanes.{HasWorked, HaveWorked, IsReady};

use crate::work::Work;
use kt_claims::{Arm, Claims, Item};

/// The draws of one worker: 16 numbers, and one that is none of the round.
const DRAWS: u32 = 17;

/// Makes the block of a number; `None` for want of memory.
fn make<W: Work>(work: &W, number: u32) -> Option<W::Block>
    requires { number < W.most work.now }
    ensures { IsMade (W.gives work.now) (W.lacks work.now) number result }
{
    match work.work(number) {
        Ok(block) => Some(block),
        Err(_) => None,
    }
}

/// One worker.
pub(crate) fn run_arm<W: Work>(claims: &Claims, work: &W, count: u32, arm: &mut Arm<W::Block>)
    requires few { count ≤ 16 }
    requires most { count ≤ W.most work.now }
    requires ready { IsReady claims.now arm.old }
    ensures { HasWorked claims.now (IsMade (W.gives work.now) (W.lacks work.now)) count arm.old arm.new }
{
    for _turn in 0..DRAWS {
        let Some(number) = claims.claim(&mut arm.pass, count) else {
            return;
        };
        let block = make(work, number);
        arm.ring.push_reserved(Item { number, block });
    }
    unreachable!()
}

/// The only one of these workers, if there is one.
pub(crate) fn run_last<W: Work>(claims: &Claims, work: &W, count: u32, arms: &mut [Arm<W::Block>])
    requires few { count ≤ 16 }
    requires most { count ≤ W.most work.now }
    requires one { length arms.old ≤ 1 }
    requires ready { All (IsReady claims.now) arms.old }
    ensures { HaveWorked claims.now (IsMade (W.gives work.now) (W.lacks work.now)) count arms.old arms.new }
{
    if !arms.is_empty() {
        run_arm(claims, work, count, &mut arms[0]);
    }
}
