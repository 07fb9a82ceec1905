//! The tops of a programme, their layers, and the ids beneath them.
//! The rule: docs/FINANCIAL_MODULE.md, "Levels".
ghost use Rattle.std.specs.Prelude.{◌≡◌, ◌++◌, ℕ, None, Some, cond, nat_eq, List, length, map, is_some, IfOk, OnOk};
ghost use Rattle.std.specs.List.{filter};
ghost use Rattle.kt_fmtree.specs.Programme.{or_first};
ghost use Rattle.kt_structure.specs.Plan.{found_terms, layer_link, link_key, linked};
ghost use Rattle.kt_keys.specs.UnitTable.{value_of};
ghost use Rattle.kt_rec.specs.Rising.{rising};

use crate::links::{Link, by_key, push_linked};
use crate::terms::Terms;
use kt_fmtree::{Lists, rising};
use kt_index::ByKey;
use kt_keys::UnitTable;
use kt_rec::FmPolicytc;
use kt_rules::Profile;
use std::alloc::{AllocError, Global};

/// Whether the losses of an id come to a unit.
fn is_taken(next: &UnitTable<u32>, id: u32) -> bool
    ensures value { result ≡ is_some (value_of next.now (1, id)) }
{
    next.of(1, id).is_some()
}

/// The ids of a list whose losses come to a unit.
fn among(alloc: Global, next: &UnitTable<u32>, ids: &[u32]) -> Result<Vec<u32>, AllocError>
    ensures value { IfOk result (λ taken. taken.items ≡ filter (λ id. is_some (value_of next.now (1, id))) ids.now) }
{
    ids.iter()
        .copied()
        .filter(|id| is_taken(next, *id))
        .collect(alloc)
}

/// The ids of a list whose losses come to a unit, rising.
pub(crate) fn taken(
    alloc: Global,
    next: &UnitTable<u32>,
    ids: &[u32],
) -> Result<Vec<u32>, AllocError>
    ensures value { IfOk result (λ taken. taken.items ≡ rising (filter (λ id. is_some (value_of next.now (1, id))) ids.now)) }
{
    let taken = among(alloc, next, ids)?;
    rising(taken)
}

/// The units that links lead to.
fn units_of(alloc: Global, links: &[Link]) -> Result<Vec<u32>, AllocError>
    ensures value { IfOk result (λ units. units.items ≡ map (λ row. row.unit) links.now) }
{
    links.iter().map(|link| link.unit).collect(alloc)
}

/// The units that links lead to, rising.
pub(crate) fn reached(alloc: Global, links: &[Link]) -> Result<Vec<u32>, AllocError>
    ensures value { IfOk result (λ units. units.items ≡ rising (map (λ row. row.unit) links.now)) }
{
    let units = units_of(alloc, links)?;
    rising(units)
}

/// The link of a layer to its unit.
fn layer_link(row: &FmPolicytc) -> Link
    ensures value { result ≡ layer_link row.now }
{
    Link {
        level: row.level_id,
        unit: row.agg_id,
        child: row.layer_id,
    }
}

/// Whether a row is of a level.
fn is_at(row: &FmPolicytc, level: u32) -> bool
    ensures value { result ≡ nat_eq row.now.level_id level }
{
    row.level_id == level
}

/// The link of a layer to its unit, where it is of a level.
fn link_at(row: &FmPolicytc, level: u32) -> Option<Link>
    ensures value { result ≡ cond (nat_eq row.now.level_id level) (Some (layer_link row.now)) None }
{
    if is_at(row, level) {
        Some(layer_link(row))
    } else {
        None
    }
}

/// The links of the layers of the units of a level.
fn layer_rows(alloc: Global, policytc: &[FmPolicytc], level: u32) -> Result<Vec<Link>, AllocError>
    ensures value { IfOk result (λ links. links.items ≡ map layer_link (filter (λ row. nat_eq row.level_id level) policytc.now)) }
{
    policytc
        .iter()
        .filter_map(|row| link_at(row, level))
        .collect(alloc)
}

/// The links of the layers of the units of a level, by their units.
pub(crate) fn layer_links(
    alloc: Global,
    policytc: &[FmPolicytc],
    level: u32,
) -> Result<ByKey<Link>, AllocError>
    ensures kept { IfOk result (λ links. (key : ℕ) → filter (λ row. nat_eq (link_key row) key) links ≡ filter (λ row. nat_eq (link_key row) key) (map layer_link (filter (λ row. nat_eq row.level_id level) policytc.now))) }
{
    let rows = layer_rows(alloc, policytc, level)?;
    by_key(rows)
}

/// Puts the layers of a unit of a level, rising, behind others; layer 1 where it has none. Their links are looked for first at a
/// place, which is then that behind them.
fn push_layers(
    alloc: Global,
    links: &ByKey<Link>,
    level: u32,
    unit: u32,
    near: &mut usize,
    layers: &mut Vec<u32>,
) -> Result<(), AllocError>
    ensures ok { OnOk result (layers.new.items ≡ layers.old.items ++ or_first (linked links.now level unit)) }
{
    let count = push_linked(alloc, links, level, unit, near, layers)?;
    if count == 0 {
        layers.push(1)?;
    }
    Ok(())
}

/// The layers of each top.
pub(crate) fn layers(
    alloc: Global,
    links: &ByKey<Link>,
    level: u32,
    tops: &[u32],
) -> Result<Lists<u32>, AllocError>
    ensures value { IfOk result (λ lists. lists ≡ map (λ top. or_first (linked links.now level top)) tops.now) }
{
    let mut all = Vec::with_capacity(alloc, tops.len())?;
    let mut bounds = Vec::with_capacity(alloc, tops.len())?;
    let mut near = 0;
    for top in tops {
        push_layers(alloc, links, level, *top, &mut near, &mut all)?;
        bounds.push(all.len())?;
    }
    Ok(Lists::new(all, bounds))
}

/// Puts the terms of layers of a top behind others.
fn push_terms(
    terms: &Terms,
    level: u32,
    top: u32,
    layers: &[u32],
    row: &mut Vec<Profile>,
) -> Result<(), AllocError>
    ensures ok { OnOk result (row.new.items ≡ row.old.items ++ map (λ layer. found_terms terms.now layer level top) layers.now) }
{
    for layer in layers {
        row.push(terms.of(*layer, level, top))?;
    }
    Ok(())
}

/// The terms of the layers of each top.
pub(crate) fn terms(
    alloc: Global,
    terms: &Terms,
    level: u32,
    tops: &[u32],
    layers: &Lists<u32>,
) -> Result<Lists<Profile>, AllocError>
    requires same { length layers.now ≡ length tops.now }
    ensures value { IfOk result (λ lists. (layers_at : ℕ → List ℕ) → layers.now ≡ map layers_at tops.now → lists ≡ map (λ top. map (λ layer. found_terms terms.now layer level top) (layers_at top)) tops.now) }
{
    let mut all = Vec::with_capacity(alloc, tops.len())?;
    let mut bounds = Vec::with_capacity(alloc, tops.len())?;
    for at in 0..tops.len() {
        push_terms(terms, level, tops[at], layers.at(at), &mut all)?;
        bounds.push(all.len())?;
    }
    Ok(Lists::new(all, bounds))
}

/// The ids, rising, beneath each top, by links of ids to tops.
pub(crate) fn beneath(
    alloc: Global,
    ends: &ByKey<Link>,
    tops: &[u32],
) -> Result<Lists<u32>, AllocError>
    ensures value { IfOk result (λ lists. lists ≡ map (λ top. linked ends.now 0 top) tops.now) }
{
    let mut all = Vec::with_capacity(alloc, ends.as_slice().len())?;
    let mut bounds = Vec::with_capacity(alloc, tops.len())?;
    let mut near = 0;
    for top in tops {
        push_linked(alloc, ends, 0, *top, &mut near, &mut all)?;
        bounds.push(all.len())?;
    }
    Ok(Lists::new(all, bounds))
}
