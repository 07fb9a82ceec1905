//! The net losses of a run behind stages, one after the other.
//! The rule: docs/FINANCIAL_MODULE.md, "Reinsurance".
ghost use Rattle.std.specs.Prelude.{◌≡◌, ◌+◌, ◌≤◌, ◌++◌, ◌∷◌, [], List, map, All, IfOk, OnOk};
ghost use Rattle.kt_stream.specs.Losses.{IsLoss};
ghost use Rattle.kt_runs.specs.RunLosses.{AreWithin};
ghost use Rattle.kt_fmtree.specs.Tree.{Tree};
ghost use Rattle.kt_ri.specs.Reinsurance.{net_records, reinsured};
ghost use Rattle.kt_ri.specs.Stages.{AreStages, HasStage, IsStage};

use crate::reinsured::{net_behind, net_in_place};
use kt_runs::{Listed, LossLanes};
use kt_stream::{LossRecord, Pairs, Records};
use kt_structure::Structure;
use std::alloc::{AllocError, Global};

/// A copy of pairs.
fn pairs_of(alloc: Global, pairs: &Pairs) -> Result<Pairs, AllocError>
    ensures value { IfOk result (λ copy. copy ≡ pairs.now) }
{
    let mut copy = Pairs::new(alloc);
    for pair in pairs.as_slice() {
        copy.push(*pair)?;
    }
    Ok(copy)
}

/// A copy of a record.
fn record_of(alloc: Global, entry: &LossRecord) -> Result<LossRecord, AllocError>
    ensures value { IfOk result (λ copy. copy ≡ entry.now) }
{
    let pairs = pairs_of(alloc, &entry.pairs)?;
    Ok(LossRecord {
        event: entry.event,
        id: entry.id,
        pairs,
    })
}

/// A copy of records.
fn copy_of(alloc: Global, records: &[LossRecord]) -> Result<Records<LossRecord>, AllocError>
    ensures value { IfOk result (λ copy. copy ≡ records.now) }
{
    let mut copy = Records::new(alloc);
    for entry in records {
        copy.push(record_of(alloc, entry)?)?;
    }
    Ok(copy)
}

/// What stages leave of losses kept by lanes, as `reinsure` says it of records. An error is want of memory.
pub fn reinsure_lanes(
    alloc: Global,
    stages: &[Structure],
    samples: u32,
    losses: LossLanes,
) -> Result<LossLanes, AllocError>
    requires stages { All HasStage stages.now }
    requires samples { samples ≤ 1000 }
    requires rows { losses.rows ≡ samples + 1 }
    requires records { All (IsLoss samples) losses.records }
    requires within { AreWithin losses.records }
    ensures rows { IfOk result (λ net. net.rows ≡ samples + 1) }
    ensures net { IfOk result (λ net. (trees : List Tree) → AreStages trees stages.now → net.records ≡ reinsured trees samples losses.records) }
    ensures good { IfOk result (λ net. All (IsLoss samples) net.records) }
    ensures within { IfOk result (λ net. AreWithin net.records) }
{
    let mut net = losses;
    for stage in stages {
        net = net_in_place(alloc, stage, samples, 2, net)?;
    }
    Ok(net)
}

/// What stages leave of the losses of one run, by allocation rule 2, each stage on what the one before leaves. Without a stage the
/// records stay as they are. The losses of the run add to at most 10^16 cents at each sidx. An error is want of memory.
pub fn reinsure(
    alloc: Global,
    stages: &[Structure],
    samples: u32,
    records: &[LossRecord],
) -> Result<Records<LossRecord>, AllocError>
    requires stages { All HasStage stages.now }
    requires samples { samples ≤ 1000 }
    requires records { All (IsLoss samples) records.now }
    requires within { AreWithin records.now }
    ensures net { IfOk result (λ net. (trees : List Tree) → AreStages trees stages.now → net ≡ reinsured trees samples records.now) }
    ensures good { IfOk result (λ net. All (IsLoss samples) net) }
    ensures within { IfOk result (λ net. AreWithin net) }
{
    let [first, later @ ..] = stages else {
        return copy_of(alloc, records);
    };
    let run = Listed { records };
    let made = net_behind(alloc, first, samples, 2, &run)?;
    let net = reinsure_lanes(alloc, later, samples, made)?;
    net.to_records(alloc)
}
