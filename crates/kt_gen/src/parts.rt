//! The parts of a generated set: the files of tables that belong together.
//! The rules: docs/GENERATOR.md, "Files".
ghost use Rattle.std.specs.Prelude.{◌≡◌, ◌≤◌, ℕ, OnOk};
ghost use Rattle.kt_out.specs.NamedFiles.{with_file};
ghost use Rattle.kt_load.specs.FileNames.{file_name_of, stage_tables, table_at};
ghost use Rattle.kt_gen.specs.Generated.{draws_before_footprint, draws_before_occurrences, files_of};
ghost use Rattle.kt_gen.specs.Parts.{exposure_tables, footprint_tables, hazard_tables, insurance_tables, period_tables, summary_tables, with_files};

use crate::damage::{damage_bins_file, vulnerability_file};
use crate::draws::Draws;
use crate::exposure::{coverages_file, events_file, items_file};
use crate::financial::{fm_policytc_file, fm_profile_file, fm_programme_file, fm_xref_file};
use crate::hazard::{footprint_file, footprint_index_file, random_file};
use crate::periods::{occurrences_file, return_periods_file};
use crate::stage::{stage_policytc_file, stage_profile_file, stage_programme_file};
use crate::summaries::{fm_summary_file, gul_summary_file};
use kt_load::file_name;
use kt_money::Bytes;
use kt_out::SureInputs;
use kt_rec::{Table, TableId};
use std::alloc::{AllocError, Global};

/// How many random numbers there are.
const RANDOM_NUMBERS: u32 = 10_000;

/// Adds the file of a table, of the base at stage 0. An error is want of memory.
fn add(
    alloc: Global,
    inputs: &mut SureInputs,
    stage: u32,
    table: Table,
    file: &Bytes,
) -> Result<(), AllocError>
    ensures { OnOk result (inputs.new ≡ record inputs.old { files = with_file inputs.old.files (file_name_of (table_at stage table)) file.now }) }
{
    let name = file_name(alloc, TableId { stage, table })?;
    inputs.add(name.as_slice(), file.as_slice())
}

/// Adds the files of the events and of what is insured. An error is want of memory.
pub(crate) fn add_exposure(
    alloc: Global,
    inputs: &mut SureInputs,
    draws: &mut Draws,
    items: u32,
    events: u32,
) -> Result<(), AllocError>
    requires items { items ≤ 9000 }
    requires events { events ≤ 10000 }
    requires none { draws.old.made ≡ 0 }
    ensures files { OnOk result (inputs.new ≡ record inputs.old { files = with_files inputs.old.files (files_of draws.old.seed items events exposure_tables) }) }
    ensures made { OnOk result (draws.new.made ≡ draws_before_footprint items) }

    ensures seed { OnOk result (draws.new.seed ≡ draws.old.seed) }
{
    add(
        alloc,
        inputs,
        0,
        Table::Events,
        &events_file(alloc, events)?,
    )?;
    add(alloc, inputs, 0, Table::Items, &items_file(alloc, items)?)?;
    let coverages = coverages_file(alloc, items, draws)?;
    add(alloc, inputs, 0, Table::Coverages, &coverages)
}

/// Adds the files of the footprint, of damage and of random numbers. An error is want of memory.
pub(crate) fn add_hazard(
    alloc: Global,
    inputs: &mut SureInputs,
    draws: &mut Draws,
    items: u32,
    events: u32,
) -> Result<(), AllocError>
    requires items { items ≤ 9000 }
    requires events { events ≤ 10000 }
    requires made { draws.old.made ≡ draws_before_footprint items }
    ensures files { OnOk result (inputs.new ≡ record inputs.old { files = with_files inputs.old.files (files_of draws.old.seed items events hazard_tables) }) }
    ensures made { OnOk result (draws.new.made ≡ draws_before_occurrences items events) }

    ensures seed { OnOk result (draws.new.seed ≡ draws.old.seed) }
{
    let footprint = footprint_file(alloc, events, draws)?;
    add(alloc, inputs, 0, Table::Footprint, &footprint)?;
    let index = footprint_index_file(alloc, events)?;
    add(alloc, inputs, 0, Table::FootprintIdx, &index)?;
    let vulnerability = vulnerability_file(alloc)?;
    add(alloc, inputs, 0, Table::Vulnerability, &vulnerability)?;
    add(
        alloc,
        inputs,
        0,
        Table::DamageBinDict,
        &damage_bins_file(alloc)?,
    )?;
    let random = random_file(alloc, RANDOM_NUMBERS, draws)?;
    add(alloc, inputs, 0, Table::Random, &random)
}

/// Adds the footprint's file alone. An error is want of memory.
pub(crate) fn add_footprint(
    alloc: Global,
    inputs: &mut SureInputs,
    draws: &mut Draws,
    items: u32,
    events: u32,
) -> Result<(), AllocError>
    requires items { items ≤ 9000 }
    requires events { events ≤ 10000 }
    requires none { draws.old.made ≡ 0 }
    ensures { OnOk result (inputs.new ≡ record inputs.old { files = with_files inputs.old.files (files_of draws.old.seed items events footprint_tables) }) }
{
    // The draws of the coverages come before those of the footprint.
    coverages_file(alloc, items, draws)?;
    let footprint = footprint_file(alloc, events, draws)?;
    add(alloc, inputs, 0, Table::Footprint, &footprint)
}

/// Adds the files of the insurance. An error is want of memory.
pub(crate) fn add_insurance(
    alloc: Global,
    inputs: &mut SureInputs,
    items: u32,
) -> Result<(), AllocError>
    requires low { 1 ≤ items }
    requires high { items ≤ 9000 }
    ensures { (seed events : ℕ) → OnOk result (inputs.new ≡ record inputs.old { files = with_files inputs.old.files (files_of seed items events insurance_tables) }) }
{
    let programme = fm_programme_file(alloc, items)?;
    add(alloc, inputs, 0, Table::FmProgramme, &programme)?;
    let terms = fm_policytc_file(alloc, items)?;
    add(alloc, inputs, 0, Table::FmPolicytc, &terms)?;
    add(alloc, inputs, 0, Table::FmProfile, &fm_profile_file(alloc)?)?;
    add(
        alloc,
        inputs,
        0,
        Table::FmXref,
        &fm_xref_file(alloc, items)?,
    )
}

/// Adds the files of the summary sets. An error is want of memory.
pub(crate) fn add_summaries(
    alloc: Global,
    inputs: &mut SureInputs,
    items: u32,
) -> Result<(), AllocError>
    requires { items ≤ 9000 }
    ensures { (seed events : ℕ) → OnOk result (inputs.new ≡ record inputs.old { files = with_files inputs.old.files (files_of seed items events summary_tables) }) }
{
    let of_items = gul_summary_file(alloc, items)?;
    add(alloc, inputs, 0, Table::GulSummaryXref, &of_items)?;
    let of_outputs = fm_summary_file(alloc, items)?;
    add(alloc, inputs, 0, Table::FmSummaryXref, &of_outputs)
}

/// Adds the files of the occurrences and of the return periods. An error is want of memory.
pub(crate) fn add_periods(
    alloc: Global,
    inputs: &mut SureInputs,
    draws: &mut Draws,
    items: u32,
    events: u32,
) -> Result<(), AllocError>
    requires items { items ≤ 9000 }
    requires events { events ≤ 10000 }
    requires made { draws.old.made ≡ draws_before_occurrences items events }
    ensures { OnOk result (inputs.new ≡ record inputs.old { files = with_files inputs.old.files (files_of draws.old.seed items events period_tables) }) }
{
    let occurrences = occurrences_file(alloc, events, draws)?;
    add(alloc, inputs, 0, Table::Occurrence, &occurrences)?;
    let return_periods = return_periods_file(alloc)?;
    add(alloc, inputs, 0, Table::ReturnPeriods, &return_periods)
}

/// Adds the files of the reinsurance stage. An error is want of memory.
pub(crate) fn add_stage(
    alloc: Global,
    inputs: &mut SureInputs,
    items: u32,
) -> Result<(), AllocError>
    requires { items ≤ 9000 }
    ensures { (seed events : ℕ) → OnOk result (inputs.new ≡ record inputs.old { files = with_files inputs.old.files (files_of seed items events (stage_tables 1)) }) }
{
    let programme = stage_programme_file(alloc, items)?;
    add(alloc, inputs, 1, Table::FmProgramme, &programme)?;
    let terms = stage_policytc_file(alloc)?;
    add(alloc, inputs, 1, Table::FmPolicytc, &terms)?;
    add(
        alloc,
        inputs,
        1,
        Table::FmProfile,
        &stage_profile_file(alloc)?,
    )
}
