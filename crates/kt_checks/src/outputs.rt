//! The check of the outputs that items, or units of the top level, owe.
//! The rule: docs/CHECKS.md, "Outputs for every layer".
ghost use Rattle.std.specs.Prelude.{◌≡◌, ◌&&◌, ℕ, nat_eq, not, map, IfOk};
ghost use Rattle.std.specs.List.{list_any};
ghost use Rattle.std.specs.HashSet.{contains};
ghost use Rattle.kt_rec.specs.Rows.{rows_of};
ghost use Rattle.kt_keys.specs.FirstRow.{first_where};
ghost use Rattle.kt_keys.specs.Keys.{same_pair};
ghost use Rattle.kt_keys.specs.UnitTable.{value_of};
ghost use Rattle.kt_keys.specs.Units.{top_layers};
ghost use Rattle.kt_keys.specs.Climbing.{next_unit, climbed};
ghost use Rattle.kt_checks.specs.OutputChecks.{EndsAt, has_layer, has_owner, lacks_output, lacks_at, owes_output, owing_at, missing_output_check};

use kt_keys::{
    Need, Refusal, UnitTable, base, has_base, has_both, next_units, pair_set, policytc, programme,
    set_of, top_layers, top_level, units_of,
};
use kt_rec::{FmPolicytc, FmProgramme, FmXref, Table, Tables};
use std::alloc::{AllocError, Global};
use std::collections::HashSet;

/// The greatest number of layers.
const LAYERS: u32 = 50;

/// What the search for a missing output looks up.
#[derive(Drop)]
struct Lookups {
    /// The unit that a unit's losses at a level go to.
    next: UnitTable<u32>,
    /// The units of the top level that have terms.
    with_terms: HashSet<u32>,
    /// These units with their layers.
    layers: HashSet<(u32, u32)>,
    /// No unit of the top level has a layer behind this one.
    last: u32,
    /// What the outputs are for, by their layers.
    outputs: UnitTable<u32>,
}

/// The unit of the top level that an item's losses come to over so many levels.
pub fn climbed(next: &UnitTable<u32>, levels: u32, item: u32) -> Option<u32>
    ensures value { result ≡ climbed (value_of next.now) levels 1 item }
{
    let mut unit = item;
    for below in 0..levels {
        unit = next.of(below + 1, unit)?;
    }
    Some(unit)
}

/// Whether a layer of a unit of the top level has no output for its owner.
fn lacks_layer(lookups: &Lookups, unit: u32, owner: u32, layer: u32) -> bool
    ensures value { result ≡ (has_layer (contains nat_eq lookups.now.with_terms) (contains same_pair lookups.now.layers) unit layer && not (has_owner lookups.now.outputs (owner, layer))) }
{
    has_layer(lookups, unit, layer) && !lookups.outputs.has(layer, owner)
}

/// Whether a unit of the top level has a layer; one without terms has layer 1.
fn has_layer(lookups: &Lookups, unit: u32, layer: u32) -> bool
    ensures value { result ≡ has_layer (contains nat_eq lookups.now.with_terms) (contains same_pair lookups.now.layers) unit layer }
{
    if lookups.with_terms.contains(&unit) {
        lookups.layers.contains(&(unit, layer))
    } else {
        layer == 1
    }
}

/// Whether for some layer of a unit of the top level its owner has no output.
fn lacks_output(lookups: &Lookups, unit: u32, owner: u32) -> bool
    requires { EndsAt (contains same_pair lookups.now.layers) lookups.now.last }
    ensures value { result ≡ lacks_output (contains nat_eq lookups.now.with_terms) (contains same_pair lookups.now.layers) (has_owner lookups.now.outputs) unit owner }
{
    let mut lacks = false;
    for below in 0..lookups.last {
        let here = lacks_layer(lookups, unit, owner, below + 1);
        lacks = lacks || here;
    }
    lacks
}

/// Whether an item lacks an output for some layer of the unit of the top level that its losses come to.
fn item_lacks_output(lookups: &Lookups, top: u32, item: u32) -> bool
    requires { EndsAt (contains same_pair lookups.now.layers) lookups.now.last }
    ensures value { result ≡ lacks_at (lacks_output (contains nat_eq lookups.now.with_terms) (contains same_pair lookups.now.layers) (has_owner lookups.now.outputs)) (climbed (value_of lookups.now.next) top 1 item) item }
{
    match climbed(&lookups.next, top, item) {
        Some(unit) => lacks_output(lookups, unit, item),
        None => false,
    }
}

/// Whether the item of a row of level 1, or by rule 0 the unit of a row of the top level, lacks an output.
fn owes_output(lookups: &Lookups, rule: u32, top: u32, row: &FmProgramme) -> bool
    requires { EndsAt (contains same_pair lookups.now.layers) lookups.now.last }
    ensures value { result ≡ owes_output rule top (value_of lookups.now.next) (lacks_output (contains nat_eq lookups.now.with_terms) (contains same_pair lookups.now.layers) (has_owner lookups.now.outputs)) row.now }
{
    if rule == 0 {
        row.level_id == top && lacks_output(lookups, row.to_agg_id, row.to_agg_id)
    } else {
        row.level_id == 1 && item_lacks_output(lookups, top, row.from_agg_id)
    }
}

/// The first row that lacks an output.
fn first_owing(lookups: &Lookups, rule: u32, top: u32, rows: &[FmProgramme]) -> Option<u64>
    requires { EndsAt (contains same_pair lookups.now.layers) lookups.now.last }
    ensures value { result ≡ first_where (owes_output rule top (value_of lookups.now.next) (lacks_output (contains nat_eq lookups.now.with_terms) (contains same_pair lookups.now.layers) (has_owner lookups.now.outputs))) rows.now }
{
    for (index, row) in rows.iter().enumerate() {
        if owes_output(lookups, rule, top, row) {
            return Some(index as u64 + 1);
        }
    }
    None
}

/// The last layer of units with their layers, from 1 to 50.
fn last_layer(layers: &[(u32, u32)]) -> u32
    ensures value { EndsAt (λ pair. list_any (same_pair pair) layers.now) result }
{
    let mut last = 1;
    for pair in layers {
        last = last.max(pair.1);
    }
    last.min(LAYERS)
}

/// The layers of outputs with what they are for.
fn owned_layers(alloc: Global, outputs: &[FmXref]) -> Result<Vec<((u32, u32), u32)>, AllocError>
    ensures value { IfOk result (λ layers. layers.items ≡ map (λ row. ((row.layer_id, row.agg_id), row.output_id)) outputs.now) }
{
    outputs
        .iter()
        .map(|row| ((row.layer_id, row.agg_id), row.output_id))
        .collect(alloc)
}

/// What the outputs are for, by their layers.
fn owners(alloc: Global, outputs: &[FmXref]) -> Result<UnitTable<u32>, AllocError>
    ensures value { IfOk result (λ owners. (pair : ℕ × ℕ) → has_owner owners pair ≡ list_any (same_pair pair) (map (λ row. (row.agg_id, row.layer_id)) outputs.now)) }
{
    let layers = owned_layers(alloc, outputs)?;
    let owners = UnitTable::new(alloc, &layers)?;
    Ok(owners)
}

/// Reads what is looked up from the tables.
fn lookups_of(
    alloc: Global,
    programme: &[FmProgramme],
    policytc: &[FmPolicytc],
    outputs: &[FmXref],
) -> Result<Lookups, AllocError>
    ensures next { IfOk result (λ lookups. (unit : ℕ × ℕ) → value_of lookups.next unit ≡ next_unit programme.now unit) }
    ensures with_terms { IfOk result (λ lookups. (unit : ℕ) → contains nat_eq lookups.with_terms unit ≡ list_any (nat_eq unit) (map (λ (pair : ℕ × ℕ). pair.0) (top_layers programme.now policytc.now))) }
    ensures layers { IfOk result (λ lookups. (pair : ℕ × ℕ) → contains same_pair lookups.layers pair ≡ list_any (same_pair pair) (top_layers programme.now policytc.now)) }
    ensures last { IfOk result (λ lookups. EndsAt (contains same_pair lookups.layers) lookups.last) }
    ensures outputs { IfOk result (λ lookups. (pair : ℕ × ℕ) → has_owner lookups.outputs pair ≡ list_any (same_pair pair) (map (λ row. (row.agg_id, row.layer_id)) outputs.now)) }
{
    let layers = top_layers(alloc, programme, policytc)?;
    let units = units_of(alloc, &layers)?;
    Ok(Lookups {
        with_terms: set_of(alloc, &units)?,
        layers: pair_set(alloc, &layers)?,
        last: last_layer(&layers),
        outputs: owners(alloc, outputs)?,
        next: next_units(alloc, programme)?,
    })
}

/// The first row of a programme that lacks an output, by a rule.
fn owing_at(
    alloc: Global,
    rule: u32,
    programme: &[FmProgramme],
    policytc: &[FmPolicytc],
    outputs: &[FmXref],
) -> Result<Option<u64>, AllocError>
    ensures value { IfOk result (λ row. row ≡ owing_at rule programme.now policytc.now outputs.now) }
{
    let lookups = lookups_of(alloc, programme, policytc, outputs)?;
    Ok(first_owing(&lookups, rule, top_level(programme), programme))
}

/// Check 16: an item, or by rule 0 a unit of the top level, lacks an output for some layer.
pub(crate) fn missing_output_check(
    alloc: Global,
    tables: &Tables,
    need: &Need,
) -> Result<Option<Refusal>, AllocError>
    ensures value { IfOk result (λ found. found ≡ missing_output_check (rows_of tables.now) need.now) }
{
    let made = has_both(need, Table::FmProgramme, Table::FmPolicytc)
        && has_base(need, Table::FmXref);
    if !made {
        return Ok(None);
    }
    let row = owing_at(
        alloc,
        need.rule,
        programme(tables, 0),
        policytc(tables, 0),
        &tables.fm_xref,
    )?;
    Ok(Refusal::of(16, base(Table::FmProgramme), true, row))
}
