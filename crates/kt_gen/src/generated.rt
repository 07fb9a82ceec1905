//! A generated set of input files.
//! The rules: docs/GENERATOR.md.
ghost use Rattle.std.specs.Prelude.{◌≡◌, ◌≤◌, IfOk};
ghost use Rattle.kt_gen.specs.Generated.{files_of, generated_files};
ghost use Rattle.kt_gen.specs.Parts.{footprint_tables};

use crate::draws::Draws;
use crate::parts::{
    add_exposure, add_footprint, add_hazard, add_insurance, add_periods, add_stage, add_summaries,
};
use kt_money::OutOfMemory;
use kt_out::SureInputs;
use std::alloc::Global;

/// The input files of a made-up set with so many items and events, which the seed alone determines beside them. Each item
/// and event has a number from 1 on. An error is want of memory.
pub fn generate(
    alloc: Global,
    seed: u32,
    items: u32,
    events: u32,
) -> Result<SureInputs, OutOfMemory>
    requires some_items { 1 ≤ items }
    requires few_items { items ≤ 9000 }
    requires some_events { 1 ≤ events }
    requires few_events { events ≤ 10000 }
    ensures value { IfOk result (λ inputs. inputs ≡ record { files = generated_files seed items events; misses = 0 }) }
{
    let mut inputs = SureInputs::new(alloc);
    let mut draws = Draws::new(seed);
    add_exposure(alloc, &mut inputs, &mut draws, items, events)?;
    add_hazard(alloc, &mut inputs, &mut draws, items, events)?;
    add_insurance(alloc, &mut inputs, items)?;
    add_summaries(alloc, &mut inputs, items)?;
    add_periods(alloc, &mut inputs, &mut draws, items, events)?;
    add_stage(alloc, &mut inputs, items)?;
    Ok(inputs)
}

/// The footprint's file of such a set alone, for a run whose other tables are loaded. An error is want of memory.
pub fn generate_footprint(
    alloc: Global,
    seed: u32,
    items: u32,
    events: u32,
) -> Result<SureInputs, OutOfMemory>
    requires few_items { items ≤ 9000 }
    requires few_events { events ≤ 10000 }
    ensures value { IfOk result (λ inputs. inputs ≡ record { files = files_of seed items events footprint_tables; misses = 0 }) }
{
    let mut inputs = SureInputs::new(alloc);
    let mut draws = Draws::new(seed);
    add_footprint(alloc, &mut inputs, &mut draws, items, events)?;
    Ok(inputs)
}
