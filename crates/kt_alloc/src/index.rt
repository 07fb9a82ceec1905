//! The outputs of a portfolio, found by their units.
//! The rule: docs/FINANCIAL_MODULE.md, "Insured losses".
ghost use Rattle.std.specs.Prelude.{◌≡◌, ◌++◌, ℕ, nat_eq, length, map, IfOk, OnOk};
ghost use Rattle.std.specs.List.{filter, filter_map, flat_map, range_with_len, zip};
ghost use Rattle.std.specs.Map.{lookup};
ghost use Rattle.kt_alloc.specs.Index.{AreIndexed, first_of, outlet_in, outlets_at, unit_output};
ghost use Rattle.kt_alloc.specs.Insured.{in_order};

use crate::outlets::Outlet;
use kt_fmtree::rising;
use kt_index::{ByKey, Keyed, rows_near};
use kt_rec::FmXref;
use kt_tables::Portfolio;
use std::alloc::{AllocError, Global};

/// An output of a layer of a unit, or of an item.
#[derive(Clone, Copy, Drop)]
struct UnitOutput {
    agg_id: u32,
    layer_id: u32,
    output_id: u32,
}

impl Keyed for UnitOutput {
    ghost key_of = { λ row. row.agg_id };

    fn key(&self) -> u64 {
        u64::from(self.agg_id)
    }
}

/// The outputs of a portfolio, by their units, those of a unit by rising id. They depend on the tables alone, so that they serve
/// all runs.
#[derive(Drop)]
pub struct OutputIndex {
    by_unit: ByKey<UnitOutput>,
}

/// The ids of outputs.
fn output_ids(alloc: Global, outputs: &[FmXref]) -> Result<Vec<u32>, AllocError>
    ensures value { IfOk result (λ ids. ids.items ≡ map (λ row. row.output_id) outputs.now) }
{
    outputs.iter().map(|row| row.output_id).collect(alloc)
}

/// The first row of an output.
fn row_of(rows: &ByKey<FmXref>, id: u32) -> Option<FmXref>
    ensures value { result ≡ first_of rows.now id }
{
    rows.of(u64::from(id)).first().copied()
}

/// The rows of outputs, in the order of their ids.
fn rows_in_order(
    alloc: Global,
    ids: &[u32],
    rows: &ByKey<FmXref>,
) -> Result<Vec<FmXref>, AllocError>
    ensures value { IfOk result (λ found. found.items ≡ filter_map (first_of rows.now) ids.now) }
{
    let mut found = Vec::with_capacity(alloc, ids.len())?;
    for id in ids {
        if let Some(row) = row_of(rows, *id) {
            found.push(row)?;
        }
    }
    Ok(found)
}

/// The rows of outputs, by their ids.
fn by_id(alloc: Global, outputs: &[FmXref]) -> Result<ByKey<FmXref>, AllocError>
    ensures value { IfOk result (λ index. (id : ℕ) → first_of index id ≡ lookup (nat_eq id) (map (λ row. (row.output_id, row)) outputs.now)) }
{
    ByKey::new(alloc, outputs)
}

/// The outputs by rising id, each by its first row.
fn in_order(alloc: Global, outputs: &[FmXref]) -> Result<Vec<FmXref>, AllocError>
    ensures value { IfOk result (λ found. found.items ≡ in_order outputs.now) }
{
    let rows = by_id(alloc, outputs)?;
    let ids = rising(output_ids(alloc, outputs)?)?;
    rows_in_order(alloc, &ids, &rows)
}

/// The output of a row.
fn unit_output(row: &FmXref) -> UnitOutput
    ensures value { result ≡ unit_output row.now }
{
    UnitOutput {
        agg_id: row.agg_id,
        layer_id: row.layer_id,
        output_id: row.output_id,
    }
}

/// The outputs of rows.
fn unit_outputs(alloc: Global, outputs: &[FmXref]) -> Result<Vec<UnitOutput>, AllocError>
    ensures value { IfOk result (λ rows. rows.items ≡ map unit_output outputs.now) }
{
    outputs.iter().map(|row| unit_output(row)).collect(alloc)
}

/// The outputs of rows, by their units.
fn by_unit(alloc: Global, outputs: &[FmXref]) -> Result<ByKey<UnitOutput>, AllocError>
    ensures kept { IfOk result (λ index. (key : ℕ) → filter (λ row. nat_eq row.agg_id key) index ≡ filter (λ row. nat_eq row.agg_id key) (map unit_output outputs.now)) }
{
    let rows = unit_outputs(alloc, outputs)?;
    ByKey::of_rows(rows)
}

impl OutputIndex {
    /// The outputs of a portfolio. An error is want of memory.
    pub fn new(alloc: Global, portfolio: &Portfolio) -> Result<OutputIndex, AllocError>
        ensures value { IfOk result (AreIndexed portfolio.now.rows.fm_xref) }
    {
        let outputs = in_order(alloc, &portfolio.tables().fm_xref)?;
        let by_unit = by_unit(alloc, &outputs)?;
        Ok(OutputIndex { by_unit })
    }

    /// The outputs of a unit. They are looked for first at a place, which is then that behind them: there those of the next unit
    /// stand.
    fn of_unit(&self, unit: u32, near: &mut usize) -> &[UnitOutput]
        ensures value { result.now ≡ filter (λ row. nat_eq row.agg_id unit) self.now.by_unit }
    {
        let found = rows_near(self.by_unit.as_slice(), u64::from(unit), near);
        *near = near.saturating_add(found.len());
        found
    }

    /// Puts the outputs of a layer of a unit, with a place, behind others. They are looked for first at a place near which they may
    /// stand.
    fn push_outlets(
        &self,
        key: (u32, u32),
        place: usize,
        near: &mut usize,
        outlets: &mut Vec<Outlet>,
    ) -> Result<(), AllocError>
        ensures ok { OnOk result (outlets.new.items ≡ outlets.old.items ++ outlets_at self.now (key, place)) }
    {
        let rows = self.of_unit(key.0, near);
        for row in rows {
            if row.layer_id == key.1 {
                outlets.push(Outlet {
                    id: row.output_id,
                    place,
                })?;
            }
        }
        Ok(())
    }

    /// The outputs of layers of units, each with the place of its unit and layer.
    pub(crate) fn outlets(
        &self,
        alloc: Global,
        keys: &[(u32, u32)],
    ) -> Result<Vec<Outlet>, AllocError>
        ensures value { IfOk result (λ outlets. outlets.items ≡ flat_map (outlets_at self.now) (zip keys.now (range_with_len 0 (length keys.now)))) }
    {
        let mut outlets = Vec::with_capacity(alloc, keys.len())?;
        let mut near = 0;
        for (place, key) in keys.iter().enumerate() {
            self.push_outlets(*key, place, &mut near, &mut outlets)?;
        }
        Ok(outlets)
    }
}
