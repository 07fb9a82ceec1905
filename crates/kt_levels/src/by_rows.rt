//! What layers have at all sidx of a run, one sidx after the other, and then turned into lanes: for rules that look back.
//! The rules: docs/FINANCIAL_MODULE.md, "Calculation rules", "Insured losses".
ghost use Rattle.std.specs.Prelude.{◌≡◌, ◌+◌, ◌≤◌, ◌<◌, ◌∷◌, [], ℕ, List, Vec, length, map, All, IfOk, OnOk, slice_index_or};
ghost use Rattle.std.specs.List.{AllByRecursion};
ghost use Rattle.kt_levels.specs.Climbed.{AreLosses};
ghost use Rattle.kt_lanes.specs.Lanes.{AreLanes, column};
ghost use Rattle.kt_levels.specs.Layers.{IsTopLayer};
ghost use Rattle.kt_levels.specs.ByLanes.{AreLayers, AreLong, AreRows, amounts_at, row_in};

use crate::by_lanes::LayerLanes;
use crate::layers::TopLayer;
use crate::row::row_of;
use kt_fmtree::{Programme, zeros};
use kt_lanes::Lanes;
use std::alloc::{AllocError, Global};

/// What layers have, row by row.
#[derive(Drop)]
pub(crate) struct LayerRows {
    /// The shares of all layers in cents, one behind the other.
    pub shares: Vec<Vec<u64>>,
    /// The policy losses of the layers in cents.
    pub policies: Vec<Vec<u64>>,
}

/// What lanes have at a place. An error is want of memory.
fn column_of(alloc: Global, lanes: &Lanes, at: usize) -> Result<Vec<u64>, AllocError>
    requires { All (λ lane. at < length lane) lanes.now }
    ensures value { IfOk result (λ amounts. amounts.items ≡ column at lanes.now) }
{
    let mut amounts = Vec::with_capacity(alloc, lanes.len())?;
    for place in 0..lanes.len() {
        amounts.push(lanes.lane(place)[at])?;
    }
    Ok(amounts)
}

/// Puts what rows have at a place in the place of what a lane has.
fn take_amounts(rows: &[Vec<u64>], at: usize, lane: &mut [u64])
    requires rows { All (λ row. at < length row.items) rows.now }
    requires lane { length lane.old ≡ length rows.now }
    ensures value { lane.new ≡ amounts_at at rows.now }
{
    for place in 0..rows.len() {
        lane[place] = rows[place][at];
    }
}

/// The lanes that rows have, each of so many amounts. An error is want of memory.
fn turned(alloc: Global, count: usize, rows: &[Vec<u64>]) -> Result<Lanes, AllocError>
    requires wide { AreLong count rows.now }
    ensures value { IfOk result (λ lanes. AreLanes (length rows.now) count (row_in rows.now) lanes) }
{
    let mut lane = zeros(alloc, rows.len())?;
    let mut lanes = Lanes::with_room(alloc, count, rows.len())?;
    for place in 0..count {
        take_amounts(rows, place, &mut lane);
        lanes.push(&lane)?;
    }
    Ok(lanes)
}

/// Puts what layers have at a place of lanes behind what they have at others. An error is want of memory.
fn push_row(
    alloc: Global,
    programme: &Programme,
    width: usize,
    lanes: &Lanes,
    rule: u32,
    layers: &[TopLayer],
    at: usize,
    rows: &mut LayerRows,
) -> Result<(), AllocError>
    requires rule { rule ≤ 2 }
    requires layers { AllByRecursion (IsTopLayer programme.now) layers.now }
    requires lanes { AreLosses programme.now width lanes.now }
    requires at { at < width }
    ensures value { OnOk result (AreRows programme.now lanes.now rule layers.now at rows.old → AreRows programme.now lanes.now rule layers.now (at + 1) rows.new) }
{
    let losses = column_of(alloc, lanes, at)?;
    let levels = programme.carry(alloc, &losses)?;
    let row = row_of(alloc, programme, &levels, rule, layers)?;
    rows.shares.push(row.shares)?;
    rows.policies.push(row.policies)?;
    Ok(())
}

/// What layers have at each place of lanes. An error is want of memory.
fn rows_of(
    alloc: Global,
    programme: &Programme,
    width: usize,
    lanes: &Lanes,
    rule: u32,
    layers: &[TopLayer],
) -> Result<LayerRows, AllocError>
    requires rule { rule ≤ 2 }
    requires layers { AllByRecursion (IsTopLayer programme.now) layers.now }
    requires lanes { AreLosses programme.now width lanes.now }
    ensures value { IfOk result (λ rows. AreRows programme.now lanes.now rule layers.now width rows) }
{
    let mut rows = LayerRows {
        shares: Vec::new(alloc),
        policies: Vec::new(alloc),
    };
    for at in 0..width {
        push_row(alloc, programme, width, lanes, rule, layers, at, &mut rows)?;
    }
    Ok(rows)
}

/// How many amounts the first row has.
fn first_len(rows: &[Vec<u64>]) -> usize
    requires some { 0 < length rows.now }
    ensures value { result ≡ length (row_in rows.now 0) }
{
    rows[0].len()
}

/// What layers have at each place of lanes of the losses of the ids, as lanes. An error is want of memory.
pub(crate) fn lanes_by_rows(
    alloc: Global,
    programme: &Programme,
    width: usize,
    lanes: &Lanes,
    rule: u32,
    layers: &[TopLayer],
) -> Result<LayerLanes, AllocError>
    requires rule { rule ≤ 2 }
    requires layers { AllByRecursion (IsTopLayer programme.now) layers.now }
    requires lanes { AreLosses programme.now width lanes.now }
    ensures value { IfOk result (λ made. AreLayers programme.now lanes.now width rule layers.now made) }
{
    programme.is_of_a_tree();
    let rows = rows_of(alloc, programme, width, lanes, rule, layers)?;
    let shares = turned(alloc, first_len(&rows.shares), &rows.shares)?;
    let policies = turned(alloc, layers.len(), &rows.policies)?;
    Ok(LayerLanes { shares, policies })
}
