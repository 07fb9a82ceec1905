//! Theorems over the definitions: what the parts make together.
//! The rules: docs/COMMANDS.md, "eve".
ghost use Rattle.kt_eve.specs.Laws.{PartsMakeAFront, PartsMakeTheEvents, PartsMeet};

/// The parts 1 to n in order make the event list, for every n from 1.
pub fn parts_make_the_events()
    ensures { PartsMakeTheEvents }
{}

/// The parts 1 to p in order make the front of the event list that ends with part p.
pub fn parts_make_a_front()
    ensures { PartsMakeAFront }
{}

/// A part begins where the one before it ends.
pub fn neighbours_meet()
    ensures { PartsMeet }
{}
