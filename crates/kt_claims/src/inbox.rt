//! What the workers of a round send, and where it is collected.
//! The rule: docs/ARCHITECTURE.md, "A run of all stages".
use crate::claims::Pass;
use crate::reorder::Reorder;
use rtrb::{Consumer, Producer};
use std::alloc::Global;

/// What a worker sends: a number with its block, or with none where memory was wanting for it.
#[derive(Drop)]
pub struct Item<B> {
    /// The number.
    pub number: u32,
    /// Its block.
    pub block: Option<B>,
}

/// The end of a lane at which a worker's items come out.
pub type Lane<B> = Consumer<Item<B>, Global>;

/// What a worker works with: its pass, and the end of its lane into which it sends.
#[derive(Drop)]
pub struct Arm<B> {
    /// What it claims with.
    pub pass: Pass,
    /// The end of its lane.
    pub ring: Producer<Item<B>, Global>,
}

/// What has come over all lanes: the blocks by their numbers, whether one came for which there was no room, and how many came.
#[derive(Drop)]
pub struct Inbox<B> {
    /// The blocks by their numbers.
    pub reorder: Reorder<Option<B>>,
    /// Whether one came for which there was no room.
    pub is_spoiled: bool,
    /// How many came.
    pub arrived: u32,
}

impl<B: Drop> Inbox<B> {
    ghost use Rattle.std.specs.Prelude.{List, ◌∷◌, ◌++◌};
    ghost use Rattle.kt_claims.specs.Arrivals.{HasCome};
    ghost use Rattle.kt_claims.specs.declared.inbox.Item.{Item};

    /// Takes an item in, whichever came before it.
    pub fn accept(&mut self, item: Item<B>)
        ensures { (front back : List (Item B)) → HasCome self.old (front ++ back) → HasCome self.new (front ++ item ∷ back) }
    {
        self.arrived = self.arrived.saturating_add(1);
        let Item { number, block } = item;
        if self.reorder.can_put(number) {
            self.reorder.put(number, block);
            return;
        }
        self.is_spoiled = true;
    }
}
