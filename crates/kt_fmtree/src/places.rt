//! The places of ids among rising ids.
//! The rule: docs/FINANCIAL_MODULE.md, "Levels".
ghost use Rattle.std.specs.Prelude.{◌≡◌, ◌<◌, nat_eq, true, length, map, All, IfOk, slice_index};
ghost use Rattle.std.specs.List.{AllByRecursion, list_any};
ghost use Rattle.kt_rec.specs.Rising.{IsRising};

use std::alloc::{AllocError, Global};

/// The place of an id among rising ids that have it.
fn place_of(ids: &[u32], id: u32) -> usize
    requires rising { IsRising ids.now }
    requires member { list_any (nat_eq id) ids.now ≡ true }
    ensures within { result < length ids.now }
    ensures value { slice_index ids.now result ≡ id }
{
    match ids.binary_search(&id) {
        Ok(place) => place,
        Err(_) => unreachable!(),
    }
}

/// The place of an id among rising ids that have it. It is looked for first at a place where it may stand.
fn place_near(ids: &[u32], id: u32, near: usize) -> usize
    requires rising { IsRising ids.now }
    requires member { list_any (nat_eq id) ids.now ≡ true }
    ensures within { result < length ids.now }
    ensures value { slice_index ids.now result ≡ id }
{
    if near < ids.len() && ids[near] == id {
        return near;
    }
    place_of(ids, id)
}

/// The places of ids among rising ids that have them: at once where they stand in the same order, else by a search for each. An
/// error is want of memory.
pub fn places_of(alloc: Global, ids: &[u32], wanted: &[u32]) -> Result<Vec<usize>, AllocError>
    requires rising { IsRising ids.now }
    requires members { AllByRecursion (λ id. list_any (nat_eq id) ids.now ≡ true) wanted.now }
    ensures within { IfOk result (λ places. All (λ place. place < length ids.now) places.items) }
    ensures value { IfOk result (λ places. map (slice_index ids.now) places.items ≡ wanted.now) }
{
    let mut places = Vec::with_capacity(alloc, wanted.len())?;
    let mut near = 0;
    for id in wanted {
        let place = place_near(ids, *id, near);
        places.push(place)?;
        near = place + 1;
    }
    Ok(places)
}
