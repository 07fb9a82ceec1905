//! The terms of the layers of units.
//! The rule: docs/FINANCIAL_MODULE.md, "Policy losses".
ghost use Rattle.std.specs.Prelude.{◌≡◌, ℕ, None, Some, cond, map, nat_eq, not, All, IfOk};
ghost use Rattle.std.specs.List.{filter};
ghost use Rattle.std.specs.Map.{lookup};
ghost use Rattle.std.specs.HashMap.{get};
ghost use Rattle.kt_keys.specs.Keys.{same_pair, same_triple};
ghost use Rattle.kt_rec.specs.Ranges.{IsFmProfile};
ghost use Rattle.kt_rules.specs.Profiles.{profile_of};
ghost use Rattle.kt_fmtree.specs.Programme.{no_terms, terms_or_none};
ghost use Rattle.kt_structure.specs.Plan.{AreTerms, first_pair, found_id, found_terms, unit_pair};
ghost use Rattle.kt_keys.specs.UnitTable.{value_of};

use kt_keys::{UnitTable, first_values};
use kt_rec::{FmPolicytc, FmProfile};
use kt_rules::Profile;
use std::alloc::{AllocError, Global};
use std::collections::HashMap;

/// The profiles of the first layers of units, those of their other layers, and the terms of profiles.
#[derive(Drop)]
pub(crate) struct Terms {
    pub first: UnitTable<u32>,
    pub others: HashMap<(u32, u32, u32), u32>,
    pub by_id: HashMap<u32, Profile>,
}

/// The terms of a row, which is in the ranges of its fields.
fn profile_of(row: &FmProfile) -> Profile
    requires { IsFmProfile row.now }
    ensures value { result ≡ profile_of row.now }
{
    match Profile::of(row) {
        Ok(profile) => profile,
        Err(_) => unreachable!(),
    }
}

/// The terms of profiles by their ids.
fn id_pairs(alloc: Global, profiles: &[FmProfile]) -> Result<Vec<(u32, Profile)>, AllocError>
    requires { All IsFmProfile profiles.now }
    ensures value { IfOk result (λ pairs. pairs.items ≡ map (λ row. (row.policytc_id, profile_of row)) profiles.now) }
{
    let mut pairs = Vec::with_capacity(alloc, profiles.len())?;
    for row in profiles {
        pairs.push((row.policytc_id, profile_of(row)))?;
    }
    Ok(pairs)
}

/// Whether a row is of layer 1.
fn is_first(row: &FmPolicytc) -> bool
    ensures value { result ≡ nat_eq row.now.layer_id 1 }
{
    row.layer_id == 1
}

/// The profile of a row for its unit, where it is of layer 1.
fn first_pair(row: &FmPolicytc) -> Option<((u32, u32), u32)>
    ensures value { result ≡ cond (nat_eq row.now.layer_id 1) (Some (first_pair row.now)) None }
{
    if is_first(row) {
        Some(((row.level_id, row.agg_id), row.policytc_id))
    } else {
        None
    }
}

/// The profiles of the first layers of units.
fn first_pairs(alloc: Global, policytc: &[FmPolicytc]) -> Result<Vec<((u32, u32), u32)>, AllocError>
    ensures value { IfOk result (λ pairs. pairs.items ≡ map first_pair (filter (λ row. nat_eq row.layer_id 1) policytc.now)) }
{
    policytc
        .iter()
        .filter_map(|row| first_pair(row))
        .collect(alloc)
}

/// The profile of a row for its unit, where it is of another layer.
fn other_pair(row: &FmPolicytc) -> Option<((u32, u32, u32), u32)>
    ensures value { result ≡ cond (not (nat_eq row.now.layer_id 1)) (Some (unit_pair row.now)) None }
{
    if is_first(row) {
        None
    } else {
        Some(((row.layer_id, row.level_id, row.agg_id), row.policytc_id))
    }
}

/// The profiles of the other layers of units.
fn other_pairs(
    alloc: Global,
    policytc: &[FmPolicytc],
) -> Result<Vec<((u32, u32, u32), u32)>, AllocError>
    ensures value { IfOk result (λ pairs. pairs.items ≡ map unit_pair (filter (λ row. not (nat_eq row.layer_id 1)) policytc.now)) }
{
    policytc
        .iter()
        .filter_map(|row| other_pair(row))
        .collect(alloc)
}

/// The profile that the first layer of each unit has in its first row.
fn first_layers(alloc: Global, policytc: &[FmPolicytc]) -> Result<UnitTable<u32>, AllocError>
    ensures value { IfOk result (λ values. (key : ℕ × ℕ) → value_of values key ≡ lookup (same_pair key) (map first_pair (filter (λ row. nat_eq row.layer_id 1) policytc.now))) }
{
    let pairs = first_pairs(alloc, policytc)?;
    UnitTable::new(alloc, &pairs)
}

/// The profile that each pair of key and profile has first.
fn unit_values(
    alloc: Global,
    pairs: &[((u32, u32, u32), u32)],
) -> Result<HashMap<(u32, u32, u32), u32>, AllocError>
    ensures value { IfOk result (λ values. (key : ℕ × ℕ × ℕ) → get same_triple values key ≡ lookup (same_triple key) pairs.now) }
{
    first_values(alloc, pairs)
}

/// The profile that each other layer of a unit has in its first row.
fn other_layers(
    alloc: Global,
    policytc: &[FmPolicytc],
) -> Result<HashMap<(u32, u32, u32), u32>, AllocError>
    ensures value { IfOk result (λ values. (key : ℕ × ℕ × ℕ) → get same_triple values key ≡ lookup (same_triple key) (map unit_pair (filter (λ row. not (nat_eq row.layer_id 1)) policytc.now))) }
{
    let pairs = other_pairs(alloc, policytc)?;
    unit_values(alloc, &pairs)
}

/// The terms that each profile has in its first row.
fn id_values(alloc: Global, pairs: &[(u32, Profile)]) -> Result<HashMap<u32, Profile>, AllocError>
    ensures value { IfOk result (λ values. (key : ℕ) → get nat_eq values key ≡ lookup (nat_eq key) pairs.now) }
{
    first_values(alloc, pairs)
}

/// The terms that each profile has in its first row, by its id.
fn id_terms(alloc: Global, profiles: &[FmProfile]) -> Result<HashMap<u32, Profile>, AllocError>
    requires { All IsFmProfile profiles.now }
    ensures value { IfOk result (λ values. (key : ℕ) → get nat_eq values key ≡ lookup (nat_eq key) (map (λ row. (row.policytc_id, profile_of row)) profiles.now)) }
{
    let pairs = id_pairs(alloc, profiles)?;
    id_values(alloc, &pairs)
}

impl Terms {
    /// The terms of the tables.
    pub(crate) fn new(
        alloc: Global,
        policytc: &[FmPolicytc],
        profiles: &[FmProfile],
    ) -> Result<Terms, AllocError>
        requires { All IsFmProfile profiles.now }
        ensures value { IfOk result (AreTerms policytc.now profiles.now) }
    {
        let by_id = id_terms(alloc, profiles)?;
        let others = other_layers(alloc, policytc)?;
        let first = first_layers(alloc, policytc)?;
        Ok(Terms {
            first,
            others,
            by_id,
        })
    }

    /// The profile of a layer of a unit of a level, where it has a row.
    fn id_of(&self, layer: u32, level: u32, unit: u32) -> Option<u32>
        ensures value { result ≡ found_id self.now layer level unit }
    {
        if layer == 1 {
            return self.first.of(level, unit);
        }
        self.others.get(&(layer, level, unit)).copied()
    }

    /// The terms of a layer of a unit of a level; none where it has no row.
    pub(crate) fn of(&self, layer: u32, level: u32, unit: u32) -> Profile
        ensures value { result ≡ found_terms self.now layer level unit }
    {
        match self.id_of(layer, level, unit) {
            None => no_terms(),
            Some(id) => self.with_id(id),
        }
    }

    /// The terms of a profile; none where it has no row.
    fn with_id(&self, id: u32) -> Profile
        ensures value { result ≡ terms_or_none (get nat_eq self.now.by_id id) }
    {
        match self.by_id.get(&id) {
            None => no_terms(),
            Some(terms) => *terms,
        }
    }
}

/// No terms: a rule that leaves each loss as it is.
fn no_terms() -> Profile
    ensures value { result ≡ no_terms }
{
    Profile {
        rule: 100,
        ded1: 0,
        ded2: 0,
        ded3: 0,
        att1: 0,
        lim1: 0,
        share1: 0,
        share2: 0,
        share3: 0,
    }
}
