//! The places of ids among those of a programme.
//! The rule: docs/FINANCIAL_MODULE.md, "Reinsurance".
ghost use Rattle.std.specs.Prelude.{◌≡◌, IfOk, slice_index_or, []};
ghost use Rattle.std.specs.List.{AllByRecursion, flat_map};
ghost use Rattle.kt_rec.specs.Rising.{IsRising};
ghost use Rattle.kt_fmtree.specs.Parts.{HasProgramme};
ghost use Rattle.kt_levels.specs.Layers.{IsTopLayer};
ghost use Rattle.kt_ri.specs.Ceding.{AreLayers, ArePlaces, AreRecordPlaces, IsPlaceOf};

use kt_fmtree::{Programme, places_of};
use kt_levels::TopLayer;
use kt_runs::LossLanes;
use std::alloc::{AllocError, Global};

/// The place of an id among rising ids, where it is one of them.
fn place_of(ids: &[u32], id: u32) -> Option<usize>
    requires rising { IsRising ids.now }
    ensures value { IsPlaceOf ids.now id result }
{
    match ids.binary_search(&id) {
        Ok(place) => Some(place),
        Err(_) => None,
    }
}

/// The place of an id among rising ids, where it is one of them. It is looked for first at a place where it may stand.
pub(crate) fn place_near(ids: &[u32], id: u32, near: usize) -> Option<usize>
    requires rising { IsRising ids.now }
    ensures value { IsPlaceOf ids.now id result }
{
    if near < ids.len() && ids[near] == id {
        return Some(near);
    }
    place_of(ids, id)
}

/// Where the next id of a rising order may stand, behind the place of one that has it, or else where that was looked for.
pub(crate) fn next_near(place: Option<usize>, near: usize) -> usize {
    match place {
        Some(place) => place.saturating_add(1),
        None => near,
    }
}

/// The places of the ids of losses among rising ids, record by record.
pub(crate) fn record_places(
    alloc: Global,
    ids: &[u32],
    losses: &LossLanes,
) -> Result<Vec<Option<usize>>, AllocError>
    requires rising { IsRising ids.now }
    ensures value { IfOk result (λ places. AreRecordPlaces ids.now losses.now.records places.items) }
{
    let mut places = Vec::with_capacity(alloc, losses.len())?;
    let mut near = 0;
    for at in 0..losses.len() {
        let place = place_near(ids, losses.id(at), near);
        near = next_near(place, near);
        places.push(place)?;
    }
    Ok(places)
}

/// The ids beneath the tops of layers, layer by layer.
fn owners_of(
    alloc: Global,
    programme: &Programme,
    layers: &[TopLayer],
) -> Result<Vec<u32>, AllocError>
    requires layers { AllByRecursion (IsTopLayer programme.now) layers.now }
    ensures value { IfOk result (λ owners. owners.items ≡ flat_map (λ one. slice_index_or programme.now.beneath one.node []) layers.now) }
{
    let mut owners = Vec::new(alloc);
    for one in layers {
        owners.extend_from_slice(programme.beneath(one.node))?;
    }
    Ok(owners)
}

/// The places of the ids that have the shares in a row of layers.
pub(crate) fn owner_places(
    alloc: Global,
    programme: &Programme,
    layers: &[TopLayer],
) -> Result<Vec<usize>, AllocError>
    requires layers { AreLayers programme.now layers.now }
    ensures value { IfOk result (λ places. ArePlaces programme.now places.items) }
{
    programme.is_of_a_tree();
    let owners = owners_of(alloc, programme, layers)?;
    let places = places_of(alloc, programme.ids(), &owners)?;
    Ok(places)
}
