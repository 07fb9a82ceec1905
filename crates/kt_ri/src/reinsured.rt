//! The losses of a run behind one stage.
//! The rule: docs/FINANCIAL_MODULE.md, "Reinsurance".
ghost use Rattle.std.specs.Prelude.{◌≡◌, ◌⊎◌, ◌+◌, ◌≤◌, ℕ, length, map, All, IfOk, true, false};
ghost use Rattle.kt_stream.specs.Losses.{IsLoss};
ghost use Rattle.kt_runs.specs.RunLosses.{AreWithin};
ghost use Rattle.kt_fmtree.specs.Tree.{Tree};
ghost use Rattle.kt_fmtree.specs.Parts.{IsProgramme};
ghost use Rattle.kt_fmtree.specs.Struck.{struck};
ghost use Rattle.kt_runs.specs.Records.{ids_of};
ghost use Rattle.kt_ri.specs.Ceded.{AreCeded, AreRows, records_behind};
ghost use Rattle.kt_ri.specs.Stages.{HasStage, IsStage};
ghost use Rattle.kt_ri.specs.Reinsurance.{ceded_records, net_records};

use crate::ceded::ceded_of;
use crate::ceding::{CedingProgramme, ceding_of};
use crate::net::{lanes_behind, lanes_left};
use kt_lanes::Lanes;
use kt_runs::{Listed, LossLanes, RunEntry, RunLosses};
use kt_stream::{LossRecord, Records};
use kt_structure::Structure;
use std::alloc::{AllocError, Global};

/// The losses of a run behind a stage.
#[derive(Drop)]
pub struct Reinsured {
    /// What is left of the records, in their order.
    pub net: Records<LossRecord>,
    /// What their ids cede, in the same order. These losses may pass the 10^16 cents of a stream's loss: they are not written.
    pub ceded: Records<LossRecord>,
}

/// The programme that cedes the losses of a run: of the units that they come to.
pub(crate) fn ceding_for<R: RunLosses>(
    alloc: Global,
    stage: &Structure,
    run: &R,
) -> Result<CedingProgramme, AllocError>
    requires stage { HasStage stage.now }
    ensures value { IfOk result (λ made. (tree : Tree) → IsStage tree stage.now → IsProgramme (struck tree (ids_of (R.records_of run.now))) made) }
{
    let ids = run.id_list(alloc)?;
    let programme = stage.programme(alloc, &ids)?;
    ceding_of(alloc, programme)
}

/// What a stage leaves of losses that are kept by lanes, in the place of the losses.
fn net_in_turn(
    alloc: Global,
    stage: &Structure,
    samples: u32,
    rule: u32,
    losses: LossLanes,
) -> Result<LossLanes, AllocError>
    requires stage { HasStage stage.now }
    requires samples { samples ≤ 1000 }
    requires rule { (rule ≡ 1) ⊎ (rule ≡ 2) }
    requires rows { losses.rows ≡ samples + 1 }
    requires records { All (IsLoss samples) losses.records }
    requires within { AreWithin losses.records }
    ensures rows { IfOk result (λ made. made.rows ≡ samples + 1) }
    ensures net { IfOk result (λ made. (tree : Tree) → IsStage tree stage.now → made.records ≡ net_records tree rule samples losses.records) }
    ensures good { IfOk result (λ made. All (IsLoss samples) made.records) }
    ensures within { IfOk result (λ made. AreWithin made.records) }
{
    let ceding = ceding_for(alloc, stage, &losses)?;
    let ceded = ceded_of(alloc, &ceding, samples, rule, &losses)?;
    lanes_left(alloc, &ceding, samples, &ceded, losses)
}

/// What a stage leaves of losses that are kept by lanes. They are put in turn first, so that the stage takes them as they stand, and what
/// is left is made in their place: no lane is copied where no two records share one.
pub(crate) fn net_in_place(
    alloc: Global,
    stage: &Structure,
    samples: u32,
    rule: u32,
    losses: LossLanes,
) -> Result<LossLanes, AllocError>
    requires stage { HasStage stage.now }
    requires samples { samples ≤ 1000 }
    requires rule { (rule ≡ 1) ⊎ (rule ≡ 2) }
    requires rows { losses.rows ≡ samples + 1 }
    requires records { All (IsLoss samples) losses.records }
    requires within { AreWithin losses.records }
    ensures rows { IfOk result (λ made. made.rows ≡ samples + 1) }
    ensures net { IfOk result (λ made. (tree : Tree) → IsStage tree stage.now → made.records ≡ net_records tree rule samples losses.records) }
    ensures good { IfOk result (λ made. All (IsLoss samples) made.records) }
    ensures within { IfOk result (λ made. AreWithin made.records) }
{
    let turned = losses.in_turn(alloc)?;
    net_in_turn(alloc, stage, samples, rule, turned)
}

/// What a stage leaves of the losses of a run, by lanes.
pub(crate) fn net_behind<R: RunLosses>(
    alloc: Global,
    stage: &Structure,
    samples: u32,
    rule: u32,
    run: &R,
) -> Result<LossLanes, AllocError>
    requires stage { HasStage stage.now }
    requires samples { samples ≤ 1000 }
    requires rule { (rule ≡ 1) ⊎ (rule ≡ 2) }
    requires has_rows { R.has_rows samples run.now }
    requires records { All (IsLoss samples) (R.records_of run.now) }
    requires within { AreWithin (R.records_of run.now) }
    ensures rows { IfOk result (λ made. made.rows ≡ samples + 1) }
    ensures net { IfOk result (λ made. (tree : Tree) → IsStage tree stage.now → made.records ≡ net_records tree rule samples (R.records_of run.now)) }
    ensures good { IfOk result (λ made. All (IsLoss samples) made.records) }
    ensures within { IfOk result (λ made. AreWithin made.records) }
{
    let ceding = ceding_for(alloc, stage, run)?;
    let ceded = ceded_of(alloc, &ceding, samples, rule, run)?;
    lanes_behind(alloc, &ceding, samples, &ceded, run, true)
}

/// What is left of the records of a run, or what their ids cede, as records.
fn records_behind<R: RunLosses>(
    alloc: Global,
    stage: &CedingProgramme,
    samples: u32,
    ceded: &Lanes,
    run: &R,
    left: bool,
) -> Result<Records<LossRecord>, AllocError>
    requires samples { samples ≤ 1000 }
    requires rows { AreRows (length stage.now.ids) samples ceded.now }
    requires has_rows { R.has_rows samples run.now }
    requires records { All (IsLoss samples) (R.records_of run.now) }
    requires within { AreWithin (R.records_of run.now) }
    ensures value { IfOk result (λ made. (tree : Tree) (rule : ℕ) → IsProgramme tree stage.now → AreCeded stage.now rule samples (R.records_of run.now) ceded.now → made ≡ records_behind left tree rule samples (R.records_of run.now)) }
{
    let lanes = lanes_behind(alloc, stage, samples, ceded, run, left)?;
    lanes.to_records(alloc)
}

/// What is left of the records of a run, and what their ids cede.
fn both_behind<R: RunLosses>(
    alloc: Global,
    stage: &CedingProgramme,
    samples: u32,
    ceded: &Lanes,
    run: &R,
) -> Result<Reinsured, AllocError>
    requires samples { samples ≤ 1000 }
    requires rows { AreRows (length stage.now.ids) samples ceded.now }
    requires has_rows { R.has_rows samples run.now }
    requires records { All (IsLoss samples) (R.records_of run.now) }
    requires within { AreWithin (R.records_of run.now) }
    ensures net { IfOk result (λ made. (tree : Tree) (rule : ℕ) → IsProgramme tree stage.now → AreCeded stage.now rule samples (R.records_of run.now) ceded.now → made.net ≡ records_behind true tree rule samples (R.records_of run.now)) }
    ensures ceded { IfOk result (λ made. (tree : Tree) (rule : ℕ) → IsProgramme tree stage.now → AreCeded stage.now rule samples (R.records_of run.now) ceded.now → made.ceded ≡ records_behind false tree rule samples (R.records_of run.now)) }
{
    let net = records_behind(alloc, stage, samples, ceded, run, true)?;
    let given = records_behind(alloc, stage, samples, ceded, run, false)?;
    Ok(Reinsured { net, ceded: given })
}

/// What a stage cedes of the losses of one run by allocation rule 1 or 2, and what is left of them, at the mean and at each
/// sample. Sidx -2 is dropped, and a record without a loss is left out. An id that the programme does not name cedes nothing. The
/// losses of the run add to at most 10^16 cents at each sidx. An error is want of memory.
pub fn one_stage<T: RunEntry>(
    alloc: Global,
    stage: &Structure,
    samples: u32,
    rule: u32,
    records: &[T],
) -> Result<Reinsured, AllocError>
    requires stage { HasStage stage.now }
    requires samples { samples ≤ 1000 }
    requires rule { (rule ≡ 1) ⊎ (rule ≡ 2) }
    requires records { All (IsLoss samples) (map T.entry_of records.now) }
    requires within { AreWithin (map T.entry_of records.now) }
    ensures net { IfOk result (λ made. (tree : Tree) → IsStage tree stage.now → made.net ≡ net_records tree rule samples (map T.entry_of records.now)) }
    ensures ceded { IfOk result (λ made. (tree : Tree) → IsStage tree stage.now → made.ceded ≡ ceded_records tree rule samples (map T.entry_of records.now)) }
    ensures good { IfOk result (λ made. All (IsLoss samples) made.net) }
    ensures within { IfOk result (λ made. AreWithin made.net) }
{
    let run = Listed { records };
    let ceding = ceding_for(alloc, stage, &run)?;
    let shares = ceded_of(alloc, &ceding, samples, rule, &run)?;
    both_behind(alloc, &ceding, samples, &shares, &run)
}
