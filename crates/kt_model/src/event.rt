//! The damage distributions of an event.
//! The rules: docs/CALCULATION.md, "Damage distribution".
ghost use Rattle.std.specs.Prelude.{◌≡◌, ◌⊎◌, ◌≤◌, ◌++◌, ℕ, List, [], nat_eq, true, length, take, All, None, Some, Err, OnErr, OnOk, IfOk, IfErr};
ghost use Rattle.std.specs.List.{cons_option, filter, flat_map, sum_by};
ghost use Rattle.std.specs.List.Sorted.{IsNonDecreasingBy};
ghost use Rattle.kt_rec.specs.declared.hazard.FootRow.{FootRow};
ghost use Rattle.kt_rec.specs.declared.table.Table.TheVariants as table;
ghost use Rattle.kt_keys.specs.Refusals.{is_loaded};
ghost use Rattle.kt_stream.specs.Bins.{IsCdf, cdf_bytes};
ghost use Rattle.kt_stream.specs.Pairs.{IsId};
ghost use Rattle.kt_tables.specs.DamageLaws.{KeepsDamage};
ghost use Rattle.kt_rec.specs.declared.foot_rows.ModelStop.{ModelStop};
ghost use Rattle.kt_rec.specs.declared.foot_rows.ModelStop.TheVariants.{OutOfMemory};
ghost use Rattle.kt_model.specs.Distribution.{distribution_of, distributions_of, record_of};
ghost use Rattle.kt_model.specs.Scratch.{IsReady};
ghost use Rattle.kt_rec.specs.FootRows.{areaperil_total, first_refused_row};

use crate::bins::make_bins;
use crate::chances::{add_rows, clear};
use crate::exit::Exit;
use crate::foot_rows::check_rows;
use crate::laws::distributions_are_of_a_stream;
use crate::pairs::next_struck;
use crate::scratch::Scratch;
use kt_index::{ByKey, is_by_key, rows_near};
use kt_money::Bytes;
use kt_rec::{FootRow, ModelStop};
use kt_stream::{Cdf, Records};
use kt_tables::Portfolio;
use std::alloc::{AllocError, Global};

/// Makes the bins of the distribution of one areaperil, which has these rows, and a vulnerability. The chances are all 0 before and
/// after.
fn make_pair(
    portfolio: &Portfolio,
    rows: &[FootRow],
    vulnerability: u32,
    scratch: &mut Scratch,
) -> Result<(), AllocError>
    requires kept { KeepsDamage portfolio.now.rows }
    requires ready { IsReady portfolio.now.rows scratch.old }
    requires within { sum_by (λ row. row.prob) rows.now ≤ 1001000 }
    ensures value { OnOk result ((foot : List FootRow) (areaperil : ℕ) → rows.now ≡ filter (λ row. nat_eq row.areaperil areaperil) foot → scratch.new.cdf.bins ≡ distribution_of portfolio.now.rows foot areaperil vulnerability) }
    ensures ready { OnOk result (IsReady portfolio.now.rows scratch.new) }
{
    let chances = scratch.chances.as_mut_slice();
    add_rows(
        chances,
        scratch.places.as_mut_slice(),
        portfolio,
        rows,
        vulnerability,
    );
    make_bins(chances, portfolio.damage_bins(), &mut scratch.cdf.bins)?;
    clear(chances);
    Ok(())
}

/// Puts the distribution of one pair of areaperil, which has these rows, and vulnerability, where it has one. An error is want of memory,
/// and nothing is put then.
fn put_pair<E: Exit>(
    portfolio: &Portfolio,
    event: u32,
    rows: &[FootRow],
    pair: (u32, u32),
    scratch: &mut Scratch,
    exit: &mut E,
) -> Result<(), AllocError>
    requires kept { KeepsDamage portfolio.now.rows }
    requires ready { IsReady portfolio.now.rows scratch.old }
    requires within { sum_by (λ row. row.prob) rows.now ≤ 1001000 }
    ensures ok { OnOk result ((foot : List FootRow) → rows.now ≡ filter (λ row. nat_eq row.areaperil pair.0) foot → E.pieces exit.new ≡ E.pieces exit.old ++ flat_map E.spelled (cons_option (record_of portfolio.now.rows event foot pair) [])) }
    ensures ready { OnOk result (IsReady portfolio.now.rows scratch.new) }
    ensures unchanged { OnErr result (E.pieces exit.new ≡ E.pieces exit.old) }
{
    let (areaperil, vulnerability) = pair;
    make_pair(portfolio, rows, vulnerability, scratch)?;
    if scratch.cdf.bins.as_slice().is_empty() {
        return Ok(());
    }
    scratch.cdf.event = event;
    scratch.cdf.areaperil = areaperil;
    scratch.cdf.vulnerability = vulnerability;
    exit.put(&scratch.cdf)
}

/// Puts the distributions of an event, whose rows stand by rising areaperil. An error is want of memory; some of them may then stand
/// behind what was there.
fn put_struck<E: Exit>(
    portfolio: &Portfolio,
    event: u32,
    foot: &[FootRow],
    scratch: &mut Scratch,
    exit: &mut E,
) -> Result<(), AllocError>
    requires kept { KeepsDamage portfolio.now.rows }
    requires rising { IsNonDecreasingBy (λ row. row.areaperil) foot.now }
    requires within { (areaperil : ℕ) → areaperil_total foot.now areaperil ≤ 1001000 }
    ensures ok { OnOk result (E.pieces exit.new ≡ E.pieces exit.old ++ flat_map E.spelled (distributions_of portfolio.now.rows event foot.now)) }
    ensures behind { OnErr result (take (length (E.pieces exit.old)) (E.pieces exit.new) ≡ E.pieces exit.old) }
{
    scratch.clear(portfolio.damage_bins().len())?;
    let pairs = portfolio.pairs();
    let mut near = 0;
    let mut place = next_struck(pairs, foot, 0);
    while place < pairs.len() {
        let pair = pairs[place];
        let rows = rows_near(foot, u64::from(pair.0), &mut near);
        put_pair(portfolio, event, rows, pair, scratch, exit)?;
        place = next_struck(pairs, foot, place + 1);
    }
    Ok(())
}

/// Judges the rows of an event's footprint, and puts its distributions. Where memory is wanting, some of them may stand behind what was
/// there.
fn put_event<E: Exit>(
    alloc: Global,
    portfolio: &Portfolio,
    event: u32,
    rows: &[FootRow],
    scratch: &mut Scratch,
    exit: &mut E,
) -> Result<(), ModelStop>
    requires loaded { is_loaded portfolio.now.need 0 table.DamageBinDict ≡ true }
    ensures value { OnOk result (E.pieces exit.new ≡ E.pieces exit.old ++ flat_map E.spelled (distributions_of portfolio.now.rows event rows.now)) }
    ensures ok { OnOk result (first_refused_row rows.now ≡ None) }

    // The first refused row, before anything is put, or want of memory.
    ensures refused { IfErr result (λ stop. ((first_refused_row rows.now ≡ Some stop) × (exit.new ≡ exit.old)) ⊎ (stop ≡ OutOfMemory)) }
    ensures behind { OnErr result (take (length (E.pieces exit.old)) (E.pieces exit.new) ≡ E.pieces exit.old) }

    // A refused row is the answer, whatever memory there is.
    ensures row { (stop : ModelStop) → first_refused_row rows.now ≡ Some stop → result ≡ Err stop }
{
    check_rows(alloc, rows)?;
    portfolio.keeps_damage();
    if is_by_key(rows) {
        put_struck(portfolio, event, rows, scratch, exit)?;
        return Ok(());
    }
    let foot = ByKey::new(alloc, rows)?;
    put_struck(portfolio, event, foot.as_slice(), scratch, exit)?;
    Ok(())
}

/// The distributions of an event, whose footprint has these rows: one for each pair of areaperil and vulnerability that some
/// item has and that has one, by rising areaperil and then vulnerability. The damage bins must be loaded; where items or
/// vulnerabilities are not, there is no distribution. An error is the first row that is refused, or want of memory.
pub fn distributions(
    alloc: Global,
    portfolio: &Portfolio,
    event: u32,
    rows: &[FootRow],
) -> Result<Records<Cdf>, ModelStop>
    requires loaded { is_loaded portfolio.now.need 0 table.DamageBinDict ≡ true }
    ensures value { IfOk result (λ records. records ≡ distributions_of portfolio.now.rows event rows.now) }
    ensures fits { IsId event → IfOk result (All (IsCdf (length portfolio.now.rows.damage_bin_dict))) }
    ensures ok { OnOk result (first_refused_row rows.now ≡ None) }

    // The first refused row, or want of memory.
    ensures refused { IfErr result (λ stop. (first_refused_row rows.now ≡ Some stop) ⊎ (stop ≡ OutOfMemory)) }

    // A refused row is the answer, whatever memory there is.
    ensures row { (stop : ModelStop) → first_refused_row rows.now ≡ Some stop → result ≡ Err stop }
{
    distributions_are_of_a_stream(portfolio);
    let mut scratch = Scratch::new(alloc);
    let mut records = Vec::new(alloc);
    put_event(alloc, portfolio, event, rows, &mut scratch, &mut records)?;
    Ok(Records::from_vec(records))
}

/// Appends the distributions of an event as they stand in a stream: those of `distributions`, which says what must hold. The
/// scratch is used again from event to event. After an error nothing is appended.
pub fn put_distributions(
    alloc: Global,
    portfolio: &Portfolio,
    event: u32,
    rows: &[FootRow],
    scratch: &mut Scratch,
    out: &mut Bytes,
) -> Result<(), ModelStop>
    requires loaded { is_loaded portfolio.now.need 0 table.DamageBinDict ≡ true }
    ensures value { OnOk result (out.new ≡ out.old ++ flat_map cdf_bytes (distributions_of portfolio.now.rows event rows.now)) }
    ensures ok { OnOk result (first_refused_row rows.now ≡ None) }

    // The first refused row, before anything is appended, or want of memory.
    ensures refused { IfErr result (λ stop. ((first_refused_row rows.now ≡ Some stop) × (out.new ≡ out.old)) ⊎ (stop ≡ OutOfMemory)) }
    ensures unchanged { OnErr result (out.new ≡ out.old) }

    // A refused row is the answer, whatever memory there is.
    ensures row { (stop : ModelStop) → first_refused_row rows.now ≡ Some stop → result ≡ Err stop }
{
    let whole = out.len();
    match put_event(alloc, portfolio, event, rows, scratch, out) {
        Ok(()) => Ok(()),
        Err(stop) => {
            out.truncate(whole);
            Err(stop)
        }
    }
}
