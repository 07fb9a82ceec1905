//! One event through all stages.
//! The rules: docs/CALCULATION.md; docs/FINANCIAL_MODULE.md; docs/REFUSALS.md, "Order".
ghost use Rattle.std.specs.Prelude.{◌≡◌, ◌⊎◌, ◌+◌, ◌++◌, ◌≤◌, ℤ, true, map, All, Err, IfOk, IfErr, None, OnOk, Some};
ghost use Rattle.std.specs.List.{flat_map};
ghost use Rattle.kt_rec.specs.FootRows.{first_refused_row};
ghost use Rattle.kt_rec.specs.declared.foot_rows.ModelStop.{ModelStop};
ghost use Rattle.kt_rec.specs.declared.foot_rows.ModelStop.TheVariants.{OutOfMemory};
ghost use Rattle.kt_runs.specs.RunLosses.{AreWithin, run_loss};
ghost use Rattle.kt_stream.specs.Losses.{IsLoss};
ghost use Rattle.kt_stream.specs.Pairs.{IsId};
ghost use Rattle.kt_event.specs.Losses.{block_of_losses, event_result, ground_up_of, insured_of, layers_up_to, set_summaries, summaries_of};
ghost use Rattle.kt_block.specs.Block.{AreSummaries};
ghost use Rattle.kt_event.specs.Plan.{IsBase, IsOrMemory, IsPlan, terms_of};
ghost use Rattle.kt_block.specs.Terms.{AreTerms, has_insured, has_net, net_sets, output_perspectives, sets_of};
ghost use Rattle.kt_alloc.specs.Insured.{insured_records, layer_sums};
ghost use Rattle.kt_fmtree.specs.Programme.{tree_of};

use crate::plan::{Base, Plan};
use kt_alloc::laws::insured_losses_are_within;
use kt_alloc::{InsuredLanes, LayerSum, insured_lanes};
use kt_block::{EventBlock, Summaries, Terms, set_numbers};
use kt_gul::ground_up_lanes;
use kt_gul::laws::ground_up_losses_are_within;
use kt_model::distributions;
use kt_model::laws::distributions_are_of_a_stream;
use kt_rec::{FootRow, ModelStop, Perspective};
use kt_ri::reinsure_lanes;
use kt_runs::LossLanes;
use kt_stream::Records;
use kt_sum::summarise_sets;
use kt_tables::Portfolio;
use std::alloc::{AllocError, Global};

/// Puts the summaries of losses behind others: those of each set that their perspective has, by rising set.
fn put_summaries(
    alloc: Global,
    portfolio: &Portfolio,
    samples: u32,
    perspective: Perspective,
    losses: &LossLanes,
    made: &mut Records<Summaries>,
) -> Result<(), AllocError>
    requires samples { samples ≤ 1000 }
    requires rows { losses.now.rows ≡ samples + 1 }
    requires losses { All (IsLoss samples) losses.now.records }
    requires within { AreWithin losses.now.records }
    requires good { AreSummaries samples made.old }
    ensures ok { OnOk result (made.new ≡ made.old ++ map (summaries_of portfolio.now.rows portfolio.now.need.rule losses.now.records) (sets_of portfolio.now.rows perspective)) }
    ensures good { OnOk result (AreSummaries samples made.new) }
{
    let sets = set_numbers(alloc, portfolio, perspective)?;
    let summaries = summarise_sets(alloc, portfolio, samples, perspective, &sets, losses)?;
    for one in summaries {
        made.push(Summaries {
            perspective,
            set: one.set,
            records: one.records,
        })?;
    }
    Ok(())
}

/// Puts the summaries of the losses net of reinsurance behind others, where the run has such losses.
fn put_net_summaries(
    alloc: Global,
    portfolio: &Portfolio,
    plan: &Plan,
    insured: LossLanes,
    made: &mut Records<Summaries>,
) -> Result<(), AllocError>
    requires plan { IsPlan portfolio.now plan.now }
    requires insured { has_insured (terms_of plan.now).last ≡ true }
    requires rows { insured.rows ≡ (terms_of plan.now).samples + 1 }
    requires losses { All (IsLoss (terms_of plan.now).samples) insured.records }
    requires within { AreWithin insured.records }
    requires good { AreSummaries (terms_of plan.now).samples made.old }
    ensures ok { (losses : _) → insured.records ≡ insured_of (terms_of plan.now) portfolio.now.rows losses → OnOk result (made.new ≡ made.old ++ map (set_summaries (terms_of plan.now) portfolio.now.rows losses) (net_sets portfolio.now.rows (terms_of plan.now).last)) }
    ensures good { OnOk result (AreSummaries (terms_of plan.now).samples made.new) }
{
    if plan.terms.has_net() {
        let net = reinsure_lanes(alloc, &plan.stages, plan.terms.samples, insured)?;
        put_summaries(
            alloc,
            portfolio,
            plan.terms.samples,
            Perspective::Ri,
            &net,
            made,
        )?;
    }
    Ok(())
}

/// The insured losses of an event and the sums of its layers, by its ground-up losses. These are put in turn, so that their lanes are taken
/// as they stand, and let go: their memory serves the next stage.
fn insured_by(
    alloc: Global,
    portfolio: &Portfolio,
    terms: &Terms,
    base: &Base,
    losses: LossLanes,
) -> Result<InsuredLanes, AllocError>
    requires terms { AreTerms terms.now }
    requires base { IsBase portfolio.now.rows base.now }
    requires rows { losses.rows ≡ terms.now.samples + 1 }
    requires losses { All (IsLoss terms.now.samples) losses.records }
    requires within { AreWithin losses.records }
    ensures rows { IfOk result (λ made. made.losses.rows ≡ terms.now.samples + 1) }
    ensures records { IfOk result (λ made. made.losses.records ≡ insured_records (tree_of portfolio.now.rows 0) terms.now.rule terms.now.samples portfolio.now.rows.fm_xref losses.records) }
    ensures layers { IfOk result (λ made. made.layers ≡ layer_sums (tree_of portfolio.now.rows 0) terms.now.rule terms.now.samples losses.records) }
    ensures good { IfOk result (λ made. All (IsLoss terms.now.samples) made.losses.records) }
{
    let turned = losses.in_turn(alloc)?;
    insured_lanes(
        alloc,
        portfolio,
        &base.structure,
        &base.outputs,
        terms.samples,
        terms.rule,
        &turned,
    )
}

/// Puts the summaries of the insured losses of an event behind others, and those of its net losses, and answers the sums of the
/// layers.
fn put_insured_summaries(
    alloc: Global,
    portfolio: &Portfolio,
    plan: &Plan,
    base: &Base,
    losses: LossLanes,
    made: &mut Records<Summaries>,
) -> Result<Records<LayerSum>, AllocError>
    requires plan { IsPlan portfolio.now plan.now }
    requires base { IsBase portfolio.now.rows base.now }
    requires insured { has_insured (terms_of plan.now).last ≡ true }
    requires rows { losses.rows ≡ (terms_of plan.now).samples + 1 }
    requires losses { All (IsLoss (terms_of plan.now).samples) losses.records }
    requires within { (sidx : ℤ) → run_loss sidx losses.records ≤ 200000000000000 }
    requires good { AreSummaries (terms_of plan.now).samples made.old }
    ensures layers { IfOk result (λ layers. layers ≡ layers_up_to (terms_of plan.now).last (terms_of plan.now) portfolio.now.rows losses.records) }
    ensures ok { OnOk result (made.new ≡ made.old ++ map (set_summaries (terms_of plan.now) portfolio.now.rows losses.records) (flat_map (sets_of portfolio.now.rows) (output_perspectives (terms_of plan.now).last))) }
    ensures good { OnOk result (AreSummaries (terms_of plan.now).samples made.new) }
{
    let terms = &plan.terms;
    insured_losses_are_within(portfolio);
    let insured = insured_by(alloc, portfolio, terms, base, losses)?;
    put_summaries(
        alloc,
        portfolio,
        terms.samples,
        Perspective::Il,
        &insured.losses,
        made,
    )?;
    put_net_summaries(alloc, portfolio, plan, insured.losses, made)?;
    Ok(insured.layers)
}

/// Puts the summaries of the losses of outputs behind others, where the run has insured losses, and answers the sums of the layers.
fn put_output_summaries(
    alloc: Global,
    portfolio: &Portfolio,
    plan: &Plan,
    losses: LossLanes,
    made: &mut Records<Summaries>,
) -> Result<Records<LayerSum>, AllocError>
    requires plan { IsPlan portfolio.now plan.now }
    requires rows { losses.rows ≡ (terms_of plan.now).samples + 1 }
    requires losses { All (IsLoss (terms_of plan.now).samples) losses.records }
    requires within { (sidx : ℤ) → run_loss sidx losses.records ≤ 200000000000000 }
    requires good { AreSummaries (terms_of plan.now).samples made.old }
    ensures layers { IfOk result (λ layers. layers ≡ layers_up_to (terms_of plan.now).last (terms_of plan.now) portfolio.now.rows losses.records) }
    ensures ok { OnOk result (made.new ≡ made.old ++ map (set_summaries (terms_of plan.now) portfolio.now.rows losses.records) (flat_map (sets_of portfolio.now.rows) (output_perspectives (terms_of plan.now).last))) }
    ensures good { OnOk result (AreSummaries (terms_of plan.now).samples made.new) }
{
    match &plan.base {
        Some(base) => { put_insured_summaries(alloc, portfolio, plan, base, losses, made) }
        None => Ok(Records::new(alloc)),
    }
}

/// What an event gives, by its ground-up losses.
fn block_of(
    alloc: Global,
    portfolio: &Portfolio,
    plan: &Plan,
    event: u32,
    losses: LossLanes,
) -> Result<EventBlock, AllocError>
    requires plan { IsPlan portfolio.now plan.now }
    requires rows { losses.rows ≡ (terms_of plan.now).samples + 1 }
    requires losses { All (IsLoss (terms_of plan.now).samples) losses.records }
    requires within { (sidx : ℤ) → run_loss sidx losses.records ≤ 200000000000000 }
    ensures value { IfOk result (λ block. block ≡ block_of_losses (terms_of plan.now) portfolio.now.rows event losses.records) }
    ensures good { IfOk result (λ block. AreSummaries (terms_of plan.now).samples block.summaries) }
{
    let mut summaries = Records::new(alloc);
    put_summaries(
        alloc,
        portfolio,
        plan.terms.samples,
        Perspective::Gul,
        &losses,
        &mut summaries,
    )?;
    let layers = put_output_summaries(alloc, portfolio, plan, losses, &mut summaries)?;
    Ok(EventBlock {
        event,
        summaries,
        layers,
    })
}

/// The ground-up losses of an event with these footprint rows.
fn event_losses(
    alloc: Global,
    portfolio: &Portfolio,
    plan: &Plan,
    event: u32,
    rows: &[FootRow],
) -> Result<LossLanes, ModelStop>
    requires event { IsId event }
    requires plan { IsPlan portfolio.now plan.now }
    ensures rows { IfOk result (λ losses. losses.rows ≡ (terms_of plan.now).samples + 1) }
    ensures value { IfOk result (λ losses. losses.records ≡ ground_up_of (terms_of plan.now) portfolio.now.rows event rows.now) }
    ensures good { IfOk result (λ losses. All (IsLoss (terms_of plan.now).samples) losses.records) }
    ensures within { IfOk result (λ losses. (sidx : ℤ) → run_loss sidx losses.records ≤ 200000000000000) }
    ensures ok { OnOk result (first_refused_row rows.now ≡ None) }

    // The first refused row, or want of memory.
    ensures refused { IfErr result (λ stop. (first_refused_row rows.now ≡ Some stop) ⊎ (stop ≡ OutOfMemory)) }

    // A refused row is the answer, whatever memory there is.
    ensures row { (stop : ModelStop) → first_refused_row rows.now ≡ Some stop → result ≡ Err stop }
{
    let distributions = distributions(alloc, portfolio, event, rows)?;
    distributions_are_of_a_stream(portfolio);
    ground_up_losses_are_within(portfolio);
    let losses = ground_up_lanes(
        alloc,
        portfolio,
        plan.terms.samples,
        plan.terms.cut,
        event,
        distributions.as_slice(),
    )?;
    Ok(losses)
}

/// What an event with these footprint rows gives: its summaries in each set of the run's perspectives, and the sums of the
/// layers where there are insured losses. An error is the first refused row with its cause, whatever memory there is, or want of memory
/// where none is refused. The portfolio was loaded for the terms of the plan, which is its own.
pub fn event_block(
    alloc: Global,
    portfolio: &Portfolio,
    plan: &Plan,
    event: u32,
    rows: &[FootRow],
) -> Result<EventBlock, ModelStop>
    requires event { IsId event }
    requires plan { IsPlan portfolio.now plan.now }
    ensures exact { IsOrMemory (event_result (terms_of plan.now) portfolio.now.rows event rows.now) result }
    ensures good { IfOk result (λ block. AreSummaries (terms_of plan.now).samples block.summaries) }

    // A refused row is the answer, whatever memory there is.
    ensures row { (stop : ModelStop) → first_refused_row rows.now ≡ Some stop → result ≡ Err stop }
{
    let losses = event_losses(alloc, portfolio, plan, event, rows)?;
    let block = block_of(alloc, portfolio, plan, event, losses)?;
    Ok(block)
}
