//! The ground-up losses of an event.
//! The rules: docs/CALCULATION.md, "Sampled loss", "Mean and deviation of an item", "Coverage cut".
ghost use Rattle.std.specs.Prelude.{◌≡◌, ◌+◌, ◌-◌, ◌<◌, ◌≤◌, true, length, map, take, drop, All, IfOk, OnOk, OnErr, ◌++◌, slice_index_or};
ghost use Rattle.std.specs.List.{filter_map, flat_map};
ghost use Rattle.std.specs.List.Sorted.{IsNonDecreasingBy};
ghost use Rattle.kt_rec.specs.declared.table.Table.TheVariants as table;
ghost use Rattle.kt_keys.specs.Refusals.{is_loaded};
ghost use Rattle.kt_stream.specs.Losses.{IsLoss, loss_bytes};
ghost use Rattle.kt_stream.specs.Pairs.{IsId};
ghost use Rattle.kt_gul.specs.declared.struck.StruckItem.{StruckItem};
ghost use Rattle.kt_gul.specs.GroundUp.{StandsInFront, item_record, ground_up_records};
ghost use Rattle.kt_gul.specs.StruckItems.{AreCdfs, AreInOrder, id_of, item_of};
ghost use Rattle.kt_gul.specs.StepTables.{AreTables};
ghost use Rattle.kt_gul.specs.Groups.{IsGroupEnd};

use crate::coverage::push_coverage;
use crate::draw::Draw;
use crate::exit::{Exit, MOST_PAIRS, Written};
use crate::held::{CdfEntry, HeldCdf, held_cdfs};
use crate::struck::{StruckItem, is_by_id, struck_items};
use crate::sums::Scratch;
use crate::tables::{StepTables, tables_of};
use kt_index::ByKey;
use kt_money::Bytes;
use kt_runs::LossLanes;
use kt_stream::{Cdf, LossRecord, Records, put_loss};
use kt_tables::Portfolio;
use std::alloc::{AllocError, Global};
use std::mem::replace;

/// The place behind the items of a coverage, the first of which stands at `start`.
fn group_end(struck: &[StruckItem], start: usize, coverage: u32) -> usize
    requires within { start < length struck.now }
    requires first { (d : StruckItem) → (slice_index_or struck.now start d).item.coverage_id ≡ coverage }
    ensures value { IsGroupEnd struck.now start coverage result }
{
    for end in start + 1..struck.len() {
        if struck[end].item.coverage_id != coverage {
            return end;
        }
    }
    struck.len()
}

/// The struck items from a place up to but not including another.
fn between(struck: &[StruckItem], start: usize, end: usize) -> &[StruckItem]
    requires order { start ≤ end }
    requires within { end ≤ length struck.now }
    ensures value { result.now ≡ take (end - start) (drop start struck.now) }
{
    &struck[start..end]
}

/// Puts the records of struck items, coverage by coverage.
fn put_groups<E: Exit>(
    portfolio: &Portfolio,
    draw: Draw,
    cdfs: &[HeldCdf<'_>],
    tables: &StepTables,
    struck: &[StruckItem],
    exit: &mut E,
) -> Result<(), AllocError>
    requires loaded { is_loaded portfolio.now.need 0 table.Random ≡ true }
    requires samples { draw.samples ≤ 1000 }
    requires order { AreInOrder portfolio.now.rows cdfs.now struck.now }
    requires tables { AreTables portfolio.now.rows.damage_bin_dict cdfs.now (length cdfs.now) tables.now.tables.items tables.now.steps.items }
    requires takes { E.takes draw.samples exit.old }
    ensures takes { OnOk result (E.takes draw.samples exit.new) }
    ensures ok { OnOk result (E.pieces exit.new ≡ E.pieces exit.old ++ flat_map E.spelled (filter_map (item_record portfolio.now.rows draw.samples draw.cut draw.event cdfs.now) (map item_of struck.now))) }

    ensures front { OnErr result (StandsInFront (E.pieces exit.old) (E.pieces exit.new)) }
{
    portfolio.is_valid();
    let mut scratch = Scratch::new(draw.alloc, draw.samples as usize + 2)?;
    let mut start = 0;
    while start < struck.len() {
        let coverage = struck[start].item.coverage_id;
        let end = group_end(struck, start, coverage);
        let group = between(struck, start, end);
        scratch = push_coverage(
            portfolio, draw, coverage, cdfs, tables, group, scratch, exit,
        )?;
        start = end;
    }
    Ok(())
}

/// The records of struck items by rising id, by lanes.
fn lanes_by_id(
    portfolio: &Portfolio,
    draw: Draw,
    cdfs: &[HeldCdf<'_>],
    tables: &StepTables,
    struck: &[StruckItem],
) -> Result<LossLanes, AllocError>
    requires loaded { is_loaded portfolio.now.need 0 table.Random ≡ true }
    requires samples { draw.samples ≤ 1000 }
    requires order { AreInOrder portfolio.now.rows cdfs.now struck.now }
    requires tables { AreTables portfolio.now.rows.damage_bin_dict cdfs.now (length cdfs.now) tables.now.tables.items tables.now.steps.items }
    ensures rows { IfOk result (λ lanes. lanes.rows ≡ draw.samples + 1) }
    ensures value { IfOk result (λ lanes. lanes.records ≡ ground_up_records portfolio.now.rows draw.samples draw.cut draw.event cdfs.now) }
{
    portfolio.is_valid();
    let rows = draw.samples as usize + 1;
    let mut lanes = LossLanes::with_room(draw.alloc, struck.len(), rows)?;
    put_groups(portfolio, draw, cdfs, tables, struck, &mut lanes)?;
    if is_by_id(struck) {
        return Ok(lanes);
    }
    let sorted = lanes.by_id()?;
    Ok(sorted)
}

/// Appends the bytes of records, all or none.
fn put_records(out: &mut Bytes, records: &[LossRecord]) -> Result<(), AllocError>
    ensures ok { OnOk result (out.new ≡ out.old ++ flat_map loss_bytes records.now) }

    ensures unchanged { OnErr result (out.new ≡ out.old) }
{
    let before = out.len();
    for record in records {
        if let Err(stop) = put_loss(out, record) {
            out.truncate(before);
            return Err(stop);
        }
    }
    Ok(())
}

/// Appends the bytes of the records of struck items that stand by rising id, all or none.
fn put_written(
    portfolio: &Portfolio,
    draw: Draw,
    cdfs: &[HeldCdf<'_>],
    tables: &StepTables,
    struck: &[StruckItem],
    out: &mut Bytes,
) -> Result<(), AllocError>
    requires loaded { is_loaded portfolio.now.need 0 table.Random ≡ true }
    requires samples { draw.samples ≤ 1000 }
    requires order { AreInOrder portfolio.now.rows cdfs.now struck.now }
    requires tables { AreTables portfolio.now.rows.damage_bin_dict cdfs.now (length cdfs.now) tables.now.tables.items tables.now.steps.items }
    requires rising { IsNonDecreasingBy id_of struck.now }
    ensures ok { OnOk result (out.new ≡ out.old ++ flat_map loss_bytes (ground_up_records portfolio.now.rows draw.samples draw.cut draw.event cdfs.now)) }

    ensures unchanged { OnErr result (out.new ≡ out.old) }
{
    portfolio.is_valid();
    let room = vec![in draw.alloc; 0; MOST_PAIRS]?;
    let length = out.len();
    let before = replace(out, Bytes::new(draw.alloc));
    let mut written = Written::new(before, room);
    let answer = put_groups(portfolio, draw, cdfs, tables, struck, &mut written);
    *out = written.into_bytes();
    if let Err(stop) = answer {
        out.truncate(length);
        return Err(stop);
    }
    Ok(())
}

/// The items that an event strikes, by coverage and then by id.
fn struck_in_order(
    alloc: Global,
    portfolio: &Portfolio,
    cdfs: &[HeldCdf<'_>],
) -> Result<ByKey<StruckItem>, AllocError>
    requires { AreCdfs (length portfolio.now.rows.damage_bin_dict) cdfs.now }
    ensures order { IfOk result (AreInOrder portfolio.now.rows cdfs.now) }
{
    let struck = struck_items(alloc, portfolio, cdfs)?;
    let struck = ByKey::of_rows(struck)?;
    struck.as_slice();
    Ok(struck)
}

/// The records of the losses of an event by its distributions where they stand, by lanes.
fn lanes_of_held(
    portfolio: &Portfolio,
    draw: Draw,
    cdfs: &[HeldCdf<'_>],
) -> Result<LossLanes, AllocError>
    requires loaded { is_loaded portfolio.now.need 0 table.Random ≡ true }
    requires samples { draw.samples ≤ 1000 }
    requires cdfs { AreCdfs (length portfolio.now.rows.damage_bin_dict) cdfs.now }
    ensures rows { IfOk result (λ lanes. lanes.rows ≡ draw.samples + 1) }
    ensures value { IfOk result (λ lanes. lanes.records ≡ ground_up_records portfolio.now.rows draw.samples draw.cut draw.event cdfs.now) }
{
    portfolio.is_valid();
    let tables = tables_of(draw.alloc, portfolio.damage_bins(), cdfs)?;
    let struck = struck_in_order(draw.alloc, portfolio, cdfs)?;
    lanes_by_id(portfolio, draw, cdfs, &tables, struck.as_slice())
}

/// The ground-up losses of an event, by lanes, by rising id of the item: of each item its deviation, its mean and so many samples, with
/// the cut of the losses of a coverage to its insured value or without it. The random numbers must be loaded, and the distributions are
/// those of the event, of which none has more bins than the dictionary of damage bins. An error is want of memory.
pub fn ground_up_lanes(
    alloc: Global,
    portfolio: &Portfolio,
    samples: u32,
    cut: bool,
    event: u32,
    cdfs: &[Cdf],
) -> Result<LossLanes, AllocError>
    requires random { is_loaded portfolio.now.need 0 table.Random ≡ true }
    requires samples { samples ≤ 1000 }
    requires cdfs { AreCdfs (length portfolio.now.rows.damage_bin_dict) cdfs.now }
    ensures rows { IfOk result (λ lanes. lanes.rows ≡ samples + 1) }
    ensures value { IfOk result (λ lanes. lanes.records ≡ ground_up_records portfolio.now.rows samples cut event cdfs.now) }
    ensures good { IsId event → IfOk result (λ lanes. All (IsLoss samples) lanes.records) }
{
    portfolio.is_valid();
    let cdfs = held_cdfs(alloc, cdfs)?;
    let draw = Draw {
        alloc,
        samples,
        cut,
        event,
    };
    lanes_of_held(portfolio, draw, &cdfs)
}

/// The records of the ground-up losses of an event, as `ground_up_lanes` says it of lanes. An error is want of memory.
pub fn ground_up(
    alloc: Global,
    portfolio: &Portfolio,
    samples: u32,
    cut: bool,
    event: u32,
    cdfs: &[Cdf],
) -> Result<Records<LossRecord>, AllocError>
    requires random { is_loaded portfolio.now.need 0 table.Random ≡ true }
    requires samples { samples ≤ 1000 }
    requires cdfs { AreCdfs (length portfolio.now.rows.damage_bin_dict) cdfs.now }
    ensures value { IfOk result (λ records. records ≡ ground_up_records portfolio.now.rows samples cut event cdfs.now) }
    ensures good { IsId event → IfOk result (λ records. All (IsLoss samples) records) }
{
    let lanes = ground_up_lanes(alloc, portfolio, samples, cut, event, cdfs)?;
    lanes.to_records(alloc)
}

/// Appends the bytes of the records of struck items, by rising id, all or none.
fn put_struck(
    portfolio: &Portfolio,
    draw: Draw,
    cdfs: &[HeldCdf<'_>],
    tables: &StepTables,
    struck: &[StruckItem],
    out: &mut Bytes,
) -> Result<(), AllocError>
    requires loaded { is_loaded portfolio.now.need 0 table.Random ≡ true }
    requires samples { draw.samples ≤ 1000 }
    requires order { AreInOrder portfolio.now.rows cdfs.now struck.now }
    requires tables { AreTables portfolio.now.rows.damage_bin_dict cdfs.now (length cdfs.now) tables.now.tables.items tables.now.steps.items }
    ensures ok { OnOk result (out.new ≡ out.old ++ flat_map loss_bytes (ground_up_records portfolio.now.rows draw.samples draw.cut draw.event cdfs.now)) }

    ensures unchanged { OnErr result (out.new ≡ out.old) }
{
    if is_by_id(struck) {
        return put_written(portfolio, draw, cdfs, tables, struck, out);
    }
    let lanes = lanes_by_id(portfolio, draw, cdfs, tables, struck)?;
    let records = lanes.to_records(draw.alloc)?;
    put_records(out, records.as_slice())
}

/// Appends the bytes of the records of an event's losses by its distributions where they stand, all or none.
fn put_held(
    portfolio: &Portfolio,
    draw: Draw,
    cdfs: &[HeldCdf<'_>],
    out: &mut Bytes,
) -> Result<(), AllocError>
    requires loaded { is_loaded portfolio.now.need 0 table.Random ≡ true }
    requires samples { draw.samples ≤ 1000 }
    requires cdfs { AreCdfs (length portfolio.now.rows.damage_bin_dict) cdfs.now }
    ensures ok { OnOk result (out.new ≡ out.old ++ flat_map loss_bytes (ground_up_records portfolio.now.rows draw.samples draw.cut draw.event cdfs.now)) }

    ensures unchanged { OnErr result (out.new ≡ out.old) }
{
    portfolio.is_valid();
    let tables = tables_of(draw.alloc, portfolio.damage_bins(), cdfs)?;
    let struck = struck_in_order(draw.alloc, portfolio, cdfs)?;
    put_struck(portfolio, draw, cdfs, &tables, struck.as_slice(), out)
}

/// Appends the records of the ground-up losses of an event as they stand in a stream: those of `ground_up`, which says what must
/// hold. An error is want of memory; the bytes are then as they were.
pub fn put_ground_up<T: CdfEntry>(
    alloc: Global,
    portfolio: &Portfolio,
    samples: u32,
    cut: bool,
    event: u32,
    cdfs: &[T],
    out: &mut Bytes,
) -> Result<(), AllocError>
    requires random { is_loaded portfolio.now.need 0 table.Random ≡ true }
    requires samples { samples ≤ 1000 }
    requires cdfs { AreCdfs (length portfolio.now.rows.damage_bin_dict) (map T.cdf_of cdfs.now) }
    ensures ok { OnOk result (out.new ≡ out.old ++ flat_map loss_bytes (ground_up_records portfolio.now.rows samples cut event (map T.cdf_of cdfs.now))) }

    ensures unchanged { OnErr result (out.new ≡ out.old) }
{
    let cdfs = held_cdfs(alloc, cdfs)?;
    let draw = Draw {
        alloc,
        samples,
        cut,
        event,
    };
    put_held(portfolio, draw, &cdfs, out)
}
