//! The lookups of events, of their records in the footprint file, and of damage.
//! The rule: docs/TABLES.md, "Lookups".
ghost use Rattle.std.specs.Prelude.{IfOk};
ghost use Rattle.kt_rec.specs.Rows.{rows_of};
ghost use Rattle.kt_tables.specs.Kept.{AreDamages, ArePlaces, AreHazardLookups};

use crate::columns::parts_of;
use crate::place::Place;
use kt_index::{ByKey, is_by_key};
use kt_keys::{first_values, keys_of};
use kt_rec::{Tables, Vulnerability};
use std::alloc::{AllocError, Global};
use std::collections::HashMap;

/// The lookups of events, of their records in the footprint file, and of damage.
#[derive(Drop)]
pub(crate) struct HazardLookups {
    /// The events in table order.
    pub(crate) event_ids: Vec<u32>,
    /// Where the records of each event stand in the footprint file.
    pub(crate) places: HashMap<u32, Place>,
    /// The rows of vulnerability by vulnerability and intensity, where the table is in another order.
    pub(crate) damages: Option<ByKey<Vulnerability>>,
}

/// The places of the records of events.
fn places(alloc: Global, tables: &Tables) -> Result<HashMap<u32, Place>, AllocError>
    ensures value { IfOk result (ArePlaces (rows_of tables.now)) }
{
    let pairs = parts_of(alloc, &tables.footprint_idx)?;
    first_values(alloc, &pairs)
}

/// The rows of vulnerability by vulnerability and intensity; nothing where the table is in that order.
fn damages(alloc: Global, tables: &Tables) -> Result<Option<ByKey<Vulnerability>>, AllocError>
    ensures value { IfOk result (AreDamages (rows_of tables.now)) }
{
    if is_by_key(&tables.vulnerability) {
        return Ok(None);
    }
    Ok(Some(ByKey::new(alloc, &tables.vulnerability)?))
}

impl HazardLookups {
    /// What is kept of events and of damage. An error is want of memory.
    pub(crate) fn new(alloc: Global, tables: &Tables) -> Result<HazardLookups, AllocError>
        ensures value { IfOk result (AreHazardLookups (rows_of tables.now)) }
    {
        Ok(HazardLookups {
            event_ids: keys_of(alloc, &tables.events)?,
            places: places(alloc, tables)?,
            damages: damages(alloc, tables)?,
        })
    }
}
