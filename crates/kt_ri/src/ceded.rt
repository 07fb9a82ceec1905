//! What the ids of a programme cede of the losses of a run.
//! The rule: docs/FINANCIAL_MODULE.md, "Reinsurance".
ghost use Rattle.std.specs.Prelude.{◌≡◌, ◌⊎◌, ◌+◌, ◌≤◌, All, IfOk, length};
ghost use Rattle.kt_stream.specs.Losses.{IsLoss};
ghost use Rattle.kt_runs.specs.Adding.{Holds};
ghost use Rattle.kt_runs.specs.RunLosses.{AreWithin};
ghost use Rattle.kt_lanes.specs.Lanes.{AreWide, IsLane};
ghost use Rattle.kt_runs.specs.Less.{IsPlaceIn, amount_in};
ghost use Rattle.kt_ri.specs.Ceded.{AreCeded, AreRows};

use crate::ceding::CedingProgramme;
use kt_ceded::ceded_lanes;
use kt_lanes::Lanes;
use kt_runs::RunLosses;
use std::alloc::{AllocError, Global};

/// What the ids of a programme cede of the losses of a run, at the mean and at each sample: a lane for each id.
pub(crate) fn ceded_of<R: RunLosses>(
    alloc: Global,
    stage: &CedingProgramme,
    samples: u32,
    rule: u32,
    run: &R,
) -> Result<Lanes, AllocError>
    requires samples { samples ≤ 1000 }
    requires rule { (rule ≡ 1) ⊎ (rule ≡ 2) }
    requires has_rows { R.has_rows samples run.now }
    requires records { All (IsLoss samples) (R.records_of run.now) }
    requires within { AreWithin (R.records_of run.now) }
    ensures rows { IfOk result (λ ceded. AreRows (length stage.now.ids) samples ceded) }
    ensures value { IfOk result (λ ceded. AreCeded stage.now rule samples (R.records_of run.now) ceded) }
{
    stage.is_ceding();
    let table = stage.table(alloc, samples, rule, run)?;
    ceded_lanes(
        alloc,
        stage.ids().len(),
        samples as usize + 1,
        stage.places(),
        table,
    )
}

/// The lane of what an id cedes, whose place may be absent: then it is that of nothing.
pub(crate) fn ceded_lane<'a>(
    ceded: &'a Lanes,
    samples: u32,
    place: Option<usize>,
    nothing: &'a [u64],
) -> &'a [u64]
    requires place { IsPlaceIn ceded.now place }
    requires wide { AreWide (samples + 1) ceded.now }
    requires nothing { Holds (samples + 1) (λ row. 0) nothing.now }
    ensures value { IsLane (samples + 1) (amount_in ceded.now place) result.now }
{
    match place {
        Some(place) => ceded.lane(place),
        None => nothing,
    }
}
