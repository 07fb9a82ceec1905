//! What takes the items out of the lanes, in whatever order they come.
//! The rule: docs/ARCHITECTURE.md, "A run of all stages".
ghost use Rattle.std.specs.Prelude.{List, ◌++◌};
ghost use Rattle.rtrb.specs.Ring.{received, sent, IsPair, SameConsumer};
ghost use Rattle.kt_claims.specs.Arrivals.{HasCome, all_received};
ghost use Rattle.kt_part.specs.Lanes.{AreSame};
ghost use Rattle.kt_claims.specs.declared.inbox.Item.{Item};

use kt_claims::{Inbox, Item, Lane};
use rtrb::Producer;
use std::alloc::Global;

/// How often the merger looks over all lanes at the most before it leaves the rest to the drain.
const LOOKS: u32 = 1000;

/// Takes one item out of a lane, if one is there.
fn look<B: Drop>(inbox: &mut Inbox<B>, lane: &mut Lane<B>)
    ensures same { SameConsumer lane.old lane.new }
    ensures come { (front back : List (Item B)) → HasCome inbox.old (front ++ (received lane.old ++ back)) → HasCome inbox.new (front ++ (received lane.new ++ back)) }
{
    if let Ok(item) = lane.pop() {
        inbox.accept(item);
    }
}

/// Looks at each lane once.
fn look_over<B: Drop>(inbox: &mut Inbox<B>, lanes: &mut [Lane<B>])
    ensures same { AreSame lanes.old lanes.new }
    ensures come { HasCome inbox.old (all_received lanes.old) → HasCome inbox.new (all_received lanes.new) }
{
    for place in 0..lanes.len() {
        look(inbox, &mut lanes[place]);
    }
}

/// Looks over all lanes as long as something comes, until `count` items have come, or it has looked often enough. It never waits: a
/// merger that did would have a share of a worker's processor.
pub fn merge<B: Drop>(count: u32, inbox: &mut Inbox<B>, lanes: &mut [Lane<B>])
    ensures same { AreSame lanes.old lanes.new }
    ensures come { HasCome inbox.old (all_received lanes.old) → HasCome inbox.new (all_received lanes.new) }
{
    for _turn in 0..LOOKS {
        let before = inbox.arrived;
        look_over(inbox, lanes);
        if count <= inbox.arrived || inbox.arrived == before {
            return;
        }
    }
}

/// Takes all that is left out of a lane whose worker has ended.
pub(crate) fn drain<B: Drop>(
    inbox: &mut Inbox<B>,
    ring: &mut Producer<Item<B>, Global>,
    lane: &mut Lane<B>,
)
    requires pair { IsPair ring.old lane.old }
    ensures come { (front back : List (Item B)) → HasCome inbox.old (front ++ (received lane.old ++ back)) → HasCome inbox.new (front ++ (sent ring.old ++ back)) }
{
    let left = lane.slots_beside(ring);
    for _turn in 0..left {
        let item = lane.pop_known();
        inbox.accept(item);
    }
}
