//! Lanes that are taken by their places.
//! The rules: docs/FINANCIAL_MODULE.md, "Levels".
ghost use Rattle.std.specs.Prelude.{◌≡◌, ◌+◌, ◌<◌, ◌≤◌, ℕ, List, length, slice_set, IfOk, IfSome};
ghost use Rattle.kt_lanes.specs.Places.{AreOwners, ArePlaces, AreTurning, lanes_at};

use super::Lanes;
use std::alloc::{AllocError, Global};

/// For each of so many lanes which of the places is that of the lane, and a number that is none of theirs where none is; `None` where two
/// of the places are the same. An error is want of memory.
fn owners_of(
    alloc: Global,
    places: &[usize],
    lanes: usize,
) -> Result<Option<Vec<usize>>, AllocError>
    requires within { ArePlaces lanes places.now }
    ensures { IfOk result (λ found. IfSome found (λ owners. AreOwners lanes places.now owners.items)) }
{
    let count = places.len();
    let mut owners = vec![in alloc; count; lanes]?;
    for at in 0..count {
        let place = places[at];
        if owners[place] < count {
            return Ok(None);
        }
        owners[place] = at;
    }
    Ok(Some(owners))
}

/// Names another place where there is one.
fn name_place(places: &mut [usize], at: usize, place: usize)
    ensures value { places.new ≡ slice_set places.old at place }
{
    if at < places.len() {
        places[at] = place;
    }
}

/// Puts the lane of one more place into it. Whatever stood there goes where the lane stood.
fn turn_one(places: &mut [usize], owners: &mut [usize], lanes: &mut Lanes, at: usize)
    requires inside { at < length places.old }
    requires turning { AreTurning places.old lanes.old at places.old owners.old lanes.old }
    ensures turning { (first_places : List ℕ) (first_lanes : List (List ℕ)) → AreTurning first_places first_lanes at places.old owners.old lanes.old → AreTurning first_places first_lanes (at + 1) places.new owners.new lanes.new }
{
    let from = places[at];
    if from == at {
        return;
    }
    lanes.swap(at, from);
    let other = owners[at];
    owners[from] = other;
    owners[at] = at;
    name_place(places, other, from);
    places[at] = at;
}

/// Puts the lanes in places in the order of the places, in front of all others.
fn turn(places: &mut [usize], owners: &mut [usize], lanes: &mut Lanes)
    requires within { ArePlaces (length lanes.old) places.old }
    requires owners { AreOwners (length lanes.old) places.old owners.old }
    ensures turned { AreTurning places.old lanes.old (length places.old) places.new owners.new lanes.new }
{
    for at in 0..places.len() {
        turn_one(places, owners, lanes, at);
    }
}

impl Lanes {
    /// Copies of the lanes in places, in the order of the places. An error is want of memory.
    fn copies(&self, alloc: Global, places: &[usize]) -> Result<Lanes, AllocError>
        requires within { ArePlaces (length self.now) places.now }
        ensures value { IfOk result (λ made. made ≡ lanes_at self.now places.now) }
    {
        let mut made = Lanes::with_room(alloc, places.len(), self.width)?;
        for place in places {
            made.push(self.lane(*place))?;
        }
        Ok(made)
    }

    /// The lanes in places that differ, in the order of the places.
    fn turned(self, places: Vec<usize>, owners: Vec<usize>) -> Lanes
        requires within { ArePlaces (length self) places.items }
        requires owners { AreOwners (length self) places.items owners.items }
        requires few { length places.items ≤ length self }
        ensures value { result ≡ lanes_at self places.items }
    {
        let mut lanes = self;
        let mut places = places;
        let mut owners = owners;
        let count = places.len();
        turn(&mut places, &mut owners, &mut lanes);
        lanes.truncate(count);
        lanes
    }

    /// The lanes in places, in the order of the places, and no other. Where no two of the places are the same the lanes are put so where
    /// they stand, and else copied. An error is want of memory.
    pub fn in_places(self, alloc: Global, places: Vec<usize>) -> Result<Lanes, AllocError>
        requires within { ArePlaces (length self) places.items }
        ensures value { IfOk result (λ made. made ≡ lanes_at self places.items) }
    {
        match owners_of(alloc, &places, self.len())? {
            Some(owners) if places.len() <= self.len() => Ok(self.turned(places, owners)),
            _ => self.copies(alloc, &places),
        }
    }
}
