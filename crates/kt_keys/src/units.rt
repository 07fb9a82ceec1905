//! The units of a programme and their levels.
//! The rule: docs/FINANCIAL_MODULE.md, "Levels".
ghost use Rattle.std.specs.Prelude.{◌≡◌, ◌==◌, ℕ, map, IfOk, filter};
ghost use Rattle.kt_rec.specs.Rows.{rows_of};
ghost use Rattle.kt_keys.specs.Keys.{programme_of};
ghost use Rattle.kt_keys.specs.Climbing.{next_unit};
ghost use Rattle.kt_keys.specs.UnitTable.{has_unit, value_of};
ghost use Rattle.kt_keys.specs.Units.{is_source, is_target, top_level, top_targets, top_layers};

use crate::stages::programme;
use crate::unit_table::UnitTable;
use kt_rec::{FmPolicytc, FmProgramme, Tables};
use std::alloc::{AllocError, Global};

/// The greatest level of a programme, 0 where it has no row.
pub fn top_level(programme: &[FmProgramme]) -> u32
    ensures value { result ≡ top_level programme.now }
{
    let mut greatest = 0u32;
    for row in programme {
        greatest = greatest.max(row.level_id);
    }
    greatest
}

/// The units that losses go to, with their levels, and those that they come from.
fn targets_of(
    alloc: Global,
    programme: &[FmProgramme],
) -> Result<Vec<((u32, u32), u32)>, AllocError>
    ensures value { IfOk result (λ targets. targets.items ≡ map (λ row. ((row.level_id, row.to_agg_id), row.from_agg_id)) programme.now) }
{
    programme
        .iter()
        .map(|row| ((row.level_id, row.to_agg_id), row.from_agg_id))
        .collect(alloc)
}

/// The units that losses go to, by level, each with a unit that they come from. The error is want of memory.
pub fn target_units(alloc: Global, programme: &[FmProgramme]) -> Result<UnitTable<u32>, AllocError>
    ensures value { IfOk result (λ units. (unit : ℕ × ℕ) → has_unit units unit ≡ is_target programme.now unit) }
{
    let targets = targets_of(alloc, programme)?;
    let units = UnitTable::new(alloc, &targets)?;
    Ok(units)
}

/// The units of a level that losses go to.
fn targets_at(alloc: Global, programme: &[FmProgramme], level: u32) -> Result<Vec<u32>, AllocError>
    ensures value { IfOk result (λ units. units.items ≡ map (λ row. row.to_agg_id) (filter (λ row. row.level_id == level) programme.now)) }
{
    programme
        .iter()
        .filter(|row| row.level_id == level)
        .map(|row| row.to_agg_id)
        .collect(alloc)
}

/// The units of the top level of the base's programme.
pub(crate) fn top_targets(alloc: Global, tables: &Tables) -> Result<Vec<u32>, AllocError>
    ensures value { IfOk result (λ units. units.items ≡ top_targets (programme_of (rows_of tables.now) 0)) }
{
    let programme = programme(tables, 0);
    targets_at(alloc, programme, top_level(programme))
}

/// The layers of the units of a level.
fn layers_at(
    alloc: Global,
    policytc: &[FmPolicytc],
    level: u32,
) -> Result<Vec<(u32, u32)>, AllocError>
    ensures value { IfOk result (λ layers. layers.items ≡ map (λ row. (row.agg_id, row.layer_id)) (filter (λ row. row.level_id == level) policytc.now)) }
{
    policytc
        .iter()
        .filter(|row| row.level_id == level)
        .map(|row| (row.agg_id, row.layer_id))
        .collect(alloc)
}

/// The layers of the units of the top level. The error is want of memory.
pub fn top_layers(
    alloc: Global,
    programme: &[FmProgramme],
    policytc: &[FmPolicytc],
) -> Result<Vec<(u32, u32)>, AllocError>
    ensures value { IfOk result (λ layers. layers.items ≡ top_layers programme.now policytc.now) }
{
    layers_at(alloc, policytc, top_level(programme))
}

/// The unit that each unit's losses at a level go to, row by row.
fn steps_of(alloc: Global, programme: &[FmProgramme]) -> Result<Vec<((u32, u32), u32)>, AllocError>
    ensures value { IfOk result (λ steps. steps.items ≡ map (λ row. ((row.level_id, row.from_agg_id), row.to_agg_id)) programme.now) }
{
    programme
        .iter()
        .map(|row| ((row.level_id, row.from_agg_id), row.to_agg_id))
        .collect(alloc)
}

/// The unit that each unit's losses at a level go to. The error is want of memory.
pub fn next_units(alloc: Global, programme: &[FmProgramme]) -> Result<UnitTable<u32>, AllocError>
    ensures value { IfOk result (λ next. (unit : ℕ × ℕ) → value_of next unit ≡ next_unit programme.now unit) }
    ensures sources { IfOk result (λ next. (unit : ℕ × ℕ) → has_unit next unit ≡ is_source programme.now unit) }
{
    let steps = steps_of(alloc, programme)?;
    let next = UnitTable::new(alloc, &steps)?;
    Ok(next)
}

/// The units of layers. The error is want of memory.
pub fn units_of(alloc: Global, layers: &[(u32, u32)]) -> Result<Vec<u32>, AllocError>
    ensures value { IfOk result (λ units. units.items ≡ map (λ (layer : ℕ × ℕ). layer.0) layers.now) }
{
    layers.iter().map(|layer| layer.0).collect(alloc)
}
