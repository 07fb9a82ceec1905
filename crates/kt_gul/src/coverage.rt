//! The records of the items of one coverage that an event strikes.
//! The rules: docs/CALCULATION.md, "Coverage cut"; docs/STREAMS.md, "Records".
ghost use Rattle.std.specs.Prelude.{◌≡◌, ℕ, ◌+◌, ◌*◌, ◌<◌, ◌≤◌, ◌^◌, true, length, slice_index, map, drop, All, IfOk, OnOk, OnErr, [], ◌++◌};
ghost use Rattle.std.specs.List.{filter_map, flat_map, range_with_len};
ghost use Rattle.kt_rec.specs.declared.table.Table.TheVariants as table;
ghost use Rattle.kt_keys.specs.Refusals.{is_loaded};
ghost use Rattle.kt_checks.specs.TableChecks.{tiv_of};
ghost use Rattle.kt_gul.specs.GroundUp.{StandsInFront, item_tiv, raw_loss, item_record};
ghost use Rattle.kt_gul.specs.StepTables.{AreTables};
ghost use Rattle.kt_gul.specs.Coverage.{IsRow, IsScratch, IsStruck, IsGroup, group_total};

use crate::cut::cut_row;
use crate::draw::Draw;
use crate::exit::Exit;
use crate::held::HeldCdf;
use crate::item::item_losses;
use crate::struck::StruckItem;
use crate::sums::{Scratch, add_to, clear, passes};
use crate::tables::{StepTables, steps_between};
use kt_tables::Portfolio;
use std::alloc::AllocError;

/// Appends the losses of a struck item before the cut, in the order of their sidx.
fn struck_losses(
    portfolio: &Portfolio,
    draw: Draw,
    tiv: u64,
    cdfs: &[HeldCdf<'_>],
    tables: &StepTables,
    struck: &StruckItem,
    losses: Vec<u64>,
) -> Result<Vec<u64>, AllocError>
    requires loaded { is_loaded portfolio.now.need 0 table.Random ≡ true }
    requires samples { draw.samples ≤ 1000 }
    requires value { tiv ≡ item_tiv portfolio.now.rows struck.now.item }
    requires struck { IsStruck portfolio.now.rows cdfs.now struck.now }
    requires tables { AreTables portfolio.now.rows.damage_bin_dict cdfs.now (length cdfs.now) tables.now.tables.items tables.now.steps.items }
    ensures value { IfOk result (λ longer. longer.items ≡ losses.items ++ map (raw_loss portfolio.now.rows draw.event cdfs.now struck.now.item) (range_with_len 0 (draw.samples + 2))) }
    ensures most { IfOk result (λ _. (place : ℕ) → place < draw.samples + 2 → raw_loss portfolio.now.rows draw.event cdfs.now struck.now.item place ≤ 100200100000000) }
{
    let bins = cdfs[struck.cdf].bins();
    let table = &tables.tables[struck.cdf];
    let steps = steps_between(&tables.steps, table.start, table.end);
    item_losses(
        portfolio,
        draw,
        tiv,
        bins,
        &table.places,
        steps,
        struck,
        losses,
    )
}

/// The losses behind the first ones.
fn behind(losses: &[u64], done: usize) -> &[u64]
    requires { done ≤ length losses.now }
    ensures value { result.now ≡ drop done losses.now }
{
    &losses[done..]
}

/// The losses of struck items before the cut, one item behind the other, in a list that is empty. Adds them to the totals,
/// which are 0.
fn group_losses(
    portfolio: &Portfolio,
    draw: Draw,
    tiv: u64,
    cdfs: &[HeldCdf<'_>],
    tables: &StepTables,
    group: &[StruckItem],
    totals: &mut [u64],
    losses: Vec<u64>,
) -> Result<Vec<u64>, AllocError>
    requires loaded { is_loaded portfolio.now.need 0 table.Random ≡ true }
    requires samples { draw.samples ≤ 1000 }
    requires value { All (λ struck. tiv ≡ item_tiv portfolio.now.rows struck.item) group.now }
    requires struck { All (IsStruck portfolio.now.rows cdfs.now) group.now }
    requires tables { AreTables portfolio.now.rows.damage_bin_dict cdfs.now (length cdfs.now) tables.now.tables.items tables.now.steps.items }
    requires few { length group.now ≤ 100000 }
    requires zeros { IsRow (λ place. 0) (draw.samples + 2) totals.old }
    requires empty { losses.items ≡ [] }
    ensures value { IfOk result (λ losses. losses.items ≡ flat_map (λ struck. map (raw_loss portfolio.now.rows draw.event cdfs.now struck.item) (range_with_len 0 (draw.samples + 2))) group.now) }
    ensures totals { IfOk result (λ _. IsRow (group_total portfolio.now.rows draw.event cdfs.now group.now) (draw.samples + 2) totals.new) }
    ensures most { IfOk result (λ _. (place : ℕ) → place < draw.samples + 2 → group_total portfolio.now.rows draw.event cdfs.now group.now place < 2 ^ 64) }
{
    let mut losses = losses;
    for struck in group {
        let done = losses.len();
        losses = struck_losses(portfolio, draw, tiv, cdfs, tables, struck, losses)?;
        add_to(totals, behind(&losses, done));
    }
    Ok(losses)
}

/// Appends the records of the struck items of a coverage, by their losses before the cut, which stand one item behind the
/// other: these are their losses, since none is cut.
fn push_plain<E: Exit>(
    portfolio: &Portfolio,
    draw: Draw,
    coverage: u32,
    cdfs: &[HeldCdf<'_>],
    group: &[StruckItem],
    losses: &[u64],
    exit: &mut E,
) -> Result<(), AllocError>
    requires samples { draw.samples ≤ 1000 }
    requires group { IsGroup portfolio.now.rows draw.event cdfs.now coverage group.now }
    requires losses { losses.now ≡ flat_map (λ struck. map (raw_loss portfolio.now.rows draw.event cdfs.now struck.item) (range_with_len 0 (draw.samples + 2))) group.now }
    requires plain { draw.cut ≡ true → (place : ℕ) → 1 ≤ place → place < draw.samples + 2 → group_total portfolio.now.rows draw.event cdfs.now group.now place ≤ tiv_of portfolio.now.rows.coverages coverage }
    requires takes { E.takes draw.samples exit.old }
    ensures takes { OnOk result (E.takes draw.samples exit.new) }
    ensures ok { OnOk result (E.pieces exit.new ≡ E.pieces exit.old ++ flat_map E.spelled (filter_map (item_record portfolio.now.rows draw.samples draw.cut draw.event cdfs.now) (map (λ struck. struck.item) group.now))) }

    ensures front { OnErr result (StandsInFront (E.pieces exit.old) (E.pieces exit.new)) }
{
    let width = draw.samples as usize + 2;
    let mut rest = losses;
    for struck in group {
        let (row, later) = rest.split_at(width);
        exit.put(draw, struck.item.item_id, row)?;
        rest = later;
    }
    Ok(())
}

/// Appends the records of the struck items of a coverage, by their losses before the cut, which stand one item behind the
/// other, and the totals of these.
fn push_cut<E: Exit>(
    portfolio: &Portfolio,
    draw: Draw,
    tiv: u64,
    coverage: u32,
    cdfs: &[HeldCdf<'_>],
    group: &[StruckItem],
    losses: &[u64],
    totals: &[u64],
    before: &mut [u64],
    cut: &mut [u64],
    exit: &mut E,
) -> Result<(), AllocError>
    requires value { tiv ≡ tiv_of portfolio.now.rows.coverages coverage }
    requires few { tiv ≤ 10 ^ 14 }
    requires samples { draw.samples ≤ 1000 }
    requires group { IsGroup portfolio.now.rows draw.event cdfs.now coverage group.now }
    requires losses { losses.now ≡ flat_map (λ struck. map (raw_loss portfolio.now.rows draw.event cdfs.now struck.item) (range_with_len 0 (draw.samples + 2))) group.now }
    requires totals { IsRow (group_total portfolio.now.rows draw.event cdfs.now group.now) (draw.samples + 2) totals.now }
    requires before { length before.old ≡ draw.samples + 2 }
    requires cut { length cut.old ≡ draw.samples + 2 }
    requires most { (place : ℕ) → place < draw.samples + 2 → group_total portfolio.now.rows draw.event cdfs.now group.now place < 2 ^ 64 }
    requires takes { E.takes draw.samples exit.old }
    ensures takes { OnOk result (E.takes draw.samples exit.new) }
    ensures ok { OnOk result (E.pieces exit.new ≡ E.pieces exit.old ++ flat_map E.spelled (filter_map (item_record portfolio.now.rows draw.samples draw.cut draw.event cdfs.now) (map (λ struck. struck.item) group.now))) }

    ensures front { OnErr result (StandsInFront (E.pieces exit.old) (E.pieces exit.new)) }
{
    let width = draw.samples as usize + 2;
    clear(before);
    let mut rest = losses;
    for struck in group {
        let (row, later) = rest.split_at(width);
        cut_row(draw, tiv, totals, before, row, cut);
        exit.put(draw, struck.item.item_id, cut)?;
        add_to(before, row);
        rest = later;
    }
    Ok(())
}

/// Appends the record of the only struck item of a coverage. A mean and a sample are at most its insured value, so nothing is
/// cut. The list is empty, and is handed back with its losses.
fn push_single<E: Exit>(
    portfolio: &Portfolio,
    draw: Draw,
    tiv: u64,
    coverage: u32,
    cdfs: &[HeldCdf<'_>],
    tables: &StepTables,
    group: &[StruckItem],
    losses: Vec<u64>,
    exit: &mut E,
) -> Result<Vec<u64>, AllocError>
    requires loaded { is_loaded portfolio.now.need 0 table.Random ≡ true }
    requires value { tiv ≡ tiv_of portfolio.now.rows.coverages coverage }
    requires samples { draw.samples ≤ 1000 }
    requires group { IsGroup portfolio.now.rows draw.event cdfs.now coverage group.now }
    requires tables { AreTables portfolio.now.rows.damage_bin_dict cdfs.now (length cdfs.now) tables.now.tables.items tables.now.steps.items }
    requires single { length group.now ≡ 1 }
    requires empty { losses.items ≡ [] }
    requires takes { E.takes draw.samples exit.old }
    ensures takes { OnOk result (E.takes draw.samples exit.new) }
    ensures ok { OnOk result (E.pieces exit.new ≡ E.pieces exit.old ++ flat_map E.spelled (filter_map (item_record portfolio.now.rows draw.samples draw.cut draw.event cdfs.now) (map (λ struck. struck.item) group.now))) }

    ensures front { OnErr result (StandsInFront (E.pieces exit.old) (E.pieces exit.new)) }
{
    let losses = struck_losses(portfolio, draw, tiv, cdfs, tables, &group[0], losses)?;
    push_plain(portfolio, draw, coverage, cdfs, group, &losses, exit)?;
    Ok(losses)
}

/// Appends the records of the struck items of a coverage, by their losses before the cut, which stand one item behind the
/// other, and the totals of these. The cut is only made where a total passes the insured value.
fn push_losses<E: Exit>(
    portfolio: &Portfolio,
    draw: Draw,
    tiv: u64,
    coverage: u32,
    cdfs: &[HeldCdf<'_>],
    group: &[StruckItem],
    losses: &[u64],
    totals: &[u64],
    before: &mut [u64],
    cut: &mut [u64],
    exit: &mut E,
) -> Result<(), AllocError>
    requires value { tiv ≡ tiv_of portfolio.now.rows.coverages coverage }
    requires few { tiv ≤ 10 ^ 14 }
    requires samples { draw.samples ≤ 1000 }
    requires group { IsGroup portfolio.now.rows draw.event cdfs.now coverage group.now }
    requires losses { losses.now ≡ flat_map (λ struck. map (raw_loss portfolio.now.rows draw.event cdfs.now struck.item) (range_with_len 0 (draw.samples + 2))) group.now }
    requires totals { IsRow (group_total portfolio.now.rows draw.event cdfs.now group.now) (draw.samples + 2) totals.now }
    requires before { length before.old ≡ draw.samples + 2 }
    requires cut { length cut.old ≡ draw.samples + 2 }
    requires most { (place : ℕ) → place < draw.samples + 2 → group_total portfolio.now.rows draw.event cdfs.now group.now place < 2 ^ 64 }
    requires takes { E.takes draw.samples exit.old }
    ensures takes { OnOk result (E.takes draw.samples exit.new) }
    ensures ok { OnOk result (E.pieces exit.new ≡ E.pieces exit.old ++ flat_map E.spelled (filter_map (item_record portfolio.now.rows draw.samples draw.cut draw.event cdfs.now) (map (λ struck. struck.item) group.now))) }

    ensures front { OnErr result (StandsInFront (E.pieces exit.old) (E.pieces exit.new)) }
{
    if passes(draw.cut, totals, tiv) {
        return push_cut(
            portfolio, draw, tiv, coverage, cdfs, group, losses, totals, before, cut, exit,
        );
    }
    push_plain(portfolio, draw, coverage, cdfs, group, losses, exit)
}

/// Appends the records of the struck items of a coverage, which are all those of it, by rising id. The list is empty, and is
/// handed back with their losses; the rows are written over.
fn push_group<E: Exit>(
    portfolio: &Portfolio,
    draw: Draw,
    tiv: u64,
    coverage: u32,
    cdfs: &[HeldCdf<'_>],
    tables: &StepTables,
    group: &[StruckItem],
    losses: Vec<u64>,
    totals: &mut [u64],
    before: &mut [u64],
    cut: &mut [u64],
    exit: &mut E,
) -> Result<Vec<u64>, AllocError>
    requires loaded { is_loaded portfolio.now.need 0 table.Random ≡ true }
    requires value { tiv ≡ tiv_of portfolio.now.rows.coverages coverage }
    requires few { tiv ≤ 10 ^ 14 }
    requires samples { draw.samples ≤ 1000 }
    requires group { IsGroup portfolio.now.rows draw.event cdfs.now coverage group.now }
    requires tables { AreTables portfolio.now.rows.damage_bin_dict cdfs.now (length cdfs.now) tables.now.tables.items tables.now.steps.items }
    requires empty { losses.items ≡ [] }
    requires totals { length totals.old ≡ draw.samples + 2 }
    requires before { length before.old ≡ draw.samples + 2 }
    requires cut { length cut.old ≡ draw.samples + 2 }
    requires takes { E.takes draw.samples exit.old }
    ensures takes { OnOk result (E.takes draw.samples exit.new) }
    ensures ok { OnOk result (E.pieces exit.new ≡ E.pieces exit.old ++ flat_map E.spelled (filter_map (item_record portfolio.now.rows draw.samples draw.cut draw.event cdfs.now) (map (λ struck. struck.item) group.now))) }

    ensures front { OnErr result (StandsInFront (E.pieces exit.old) (E.pieces exit.new)) }
{
    if group.len() == 1 {
        return push_single(
            portfolio, draw, tiv, coverage, cdfs, tables, group, losses, exit,
        );
    }
    clear(totals);
    let losses = group_losses(portfolio, draw, tiv, cdfs, tables, group, totals, losses)?;
    push_losses(
        portfolio, draw, tiv, coverage, cdfs, group, &losses, totals, before, cut, exit,
    )?;
    Ok(losses)
}

/// Appends the records of the struck items of a coverage, which are all those of it, by rising id. What is kept for their losses
/// is handed back.
pub(crate) fn push_coverage<E: Exit>(
    portfolio: &Portfolio,
    draw: Draw,
    coverage: u32,
    cdfs: &[HeldCdf<'_>],
    tables: &StepTables,
    group: &[StruckItem],
    scratch: Scratch,
    exit: &mut E,
) -> Result<Scratch, AllocError>
    requires loaded { is_loaded portfolio.now.need 0 table.Random ≡ true }
    requires value { tiv_of portfolio.now.rows.coverages coverage ≤ 10 ^ 14 }
    requires samples { draw.samples ≤ 1000 }
    requires group { IsGroup portfolio.now.rows draw.event cdfs.now coverage group.now }
    requires tables { AreTables portfolio.now.rows.damage_bin_dict cdfs.now (length cdfs.now) tables.now.tables.items tables.now.steps.items }
    requires scratch { IsScratch (draw.samples + 2) scratch }
    requires takes { E.takes draw.samples exit.old }
    ensures scratch { IfOk result (IsScratch (draw.samples + 2)) }
    ensures takes { OnOk result (E.takes draw.samples exit.new) }
    ensures ok { OnOk result (E.pieces exit.new ≡ E.pieces exit.old ++ flat_map E.spelled (filter_map (item_record portfolio.now.rows draw.samples draw.cut draw.event cdfs.now) (map (λ struck. struck.item) group.now))) }

    ensures front { OnErr result (StandsInFront (E.pieces exit.old) (E.pieces exit.new)) }
{
    let tiv = portfolio.tiv(coverage);
    let Scratch {
        mut losses,
        mut totals,
        mut before,
        mut cut,
    } = scratch;
    losses.clear();
    let losses = push_group(
        portfolio,
        draw,
        tiv,
        coverage,
        cdfs,
        tables,
        group,
        losses,
        &mut totals,
        &mut before,
        &mut cut,
        exit,
    )?;
    Ok(Scratch {
        losses,
        totals,
        before,
        cut,
    })
}
