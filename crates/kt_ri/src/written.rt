//! The net records of a run as they stand in a stream.
//! The rules: docs/FINANCIAL_MODULE.md, "Reinsurance"; docs/STREAMS.md, "Records".
ghost use Rattle.std.specs.Prelude.{◌≡◌, ◌⊎◌, ◌+◌, ◌*◌, ◌≤◌, ◌++◌, ℕ, true, List, [], length, map, All, OnErr, OnOk};
ghost use Rattle.std.specs.List.{cons_option, flat_map};
ghost use Rattle.kt_stream.specs.Losses.{IsLoss, loss_bytes};
ghost use Rattle.kt_stream.specs.Write.{BeginsWith};
ghost use Rattle.kt_stream.specs.declared.entry.LossRecord.{LossRecord};
ghost use Rattle.kt_runs.specs.Adding.{Holds};
ghost use Rattle.kt_runs.specs.RunLosses.{AreWithin};
ghost use Rattle.kt_fmtree.specs.Tree.{Tree};
ghost use Rattle.kt_fmtree.specs.Parts.{IsProgramme};
ghost use Rattle.kt_ri.specs.Ceded.{AreCeded, AreRows, record_behind, records_behind};
ghost use Rattle.kt_ri.specs.Reinsurance.{net_records};
ghost use Rattle.kt_ri.specs.Stages.{HasStage, IsStage};

use crate::ceded::{ceded_lane, ceded_of};
use crate::ceding::CedingProgramme;
use crate::left::write_left;
use crate::places::{next_near, place_near};
use crate::reinsured::ceding_for;
use kt_lanes::Lanes;
use kt_money::Bytes;
use kt_runs::{Listed, RunEntry, pair_room, put_pairs, zeros};
use kt_stream::LossRecord;
use kt_structure::Structure;
use std::alloc::{AllocError, Global};

/// Appends what is left of a record, where that is something, as it stands in a stream; the room takes its pairs first. The place of
/// its id is looked for first at `near`, which then is that behind it. An error is want of memory, and nothing is appended then.
fn put_left(
    stage: &CedingProgramme,
    samples: u32,
    ceded: &Lanes,
    nothing: &[u64],
    near: &mut usize,
    entry: &LossRecord,
    room: &mut [u8],
    out: &mut Bytes,
) -> Result<(), AllocError>
    requires samples { samples ≤ 1000 }
    requires rows { AreRows (length stage.now.ids) samples ceded.now }
    requires nothing { Holds (samples + 1) (λ row. 0) nothing.now }
    requires entry { IsLoss samples entry.now }
    requires room { 12 * (samples + 2) + 12 ≤ length room.old }
    ensures room { length room.new ≡ length room.old }
    ensures begins { OnOk result (BeginsWith out.old out.new) }
    ensures ok { OnOk result ((tree : Tree) (rule : ℕ) (records : List LossRecord) → IsProgramme tree stage.now → AreCeded stage.now rule samples records ceded.now → out.new ≡ out.old ++ flat_map loss_bytes (cons_option (record_behind true tree rule samples records entry.now) [])) }
    ensures unchanged { OnErr result (out.new ≡ out.old) }
{
    stage.is_ceding();
    let place = place_near(stage.ids(), entry.id, *near);
    *near = next_near(place, *near);
    let lane = ceded_lane(ceded, samples, place, nothing);
    let used = write_left(room, entry.pairs.as_slice(), samples, lane);
    put_pairs(entry.event, entry.id, room, used, out)?;
    Ok(())
}

/// Appends what is left of the records of a run as they stand in a stream. An error is want of memory, and nothing is appended
/// then.
fn put_behind<T: RunEntry>(
    alloc: Global,
    stage: &CedingProgramme,
    samples: u32,
    ceded: &Lanes,
    records: &[T],
    out: &mut Bytes,
) -> Result<(), AllocError>
    requires samples { samples ≤ 1000 }
    requires rows { AreRows (length stage.now.ids) samples ceded.now }
    requires records { All (IsLoss samples) (map T.entry_of records.now) }
    requires within { AreWithin (map T.entry_of records.now) }
    ensures ok { OnOk result ((tree : Tree) (rule : ℕ) → IsProgramme tree stage.now → AreCeded stage.now rule samples (map T.entry_of records.now) ceded.now → out.new ≡ out.old ++ flat_map loss_bytes (records_behind true tree rule samples (map T.entry_of records.now))) }
    ensures unchanged { OnErr result (out.new ≡ out.old) }
{
    let rows = samples as usize + 1;
    let nothing = zeros(alloc, rows)?;
    let mut room = pair_room(alloc, rows + 1)?;
    let mut near = 0;
    let whole = out.len();
    for held in records {
        let entry = held.entry();
        if let Err(stop) = put_left(
            stage, samples, ceded, &nothing, &mut near, entry, &mut room, out,
        ) {
            out.truncate(whole);
            return Err(stop);
        }
    }
    Ok(())
}

/// Appends what a stage leaves of the losses of one run by allocation rule 1 or 2 as it stands in a stream: the net records of
/// `one_stage`, which says what must hold. An error is want of memory, and nothing is appended then.
pub fn put_net<T: RunEntry>(
    alloc: Global,
    stage: &Structure,
    samples: u32,
    rule: u32,
    records: &[T],
    out: &mut Bytes,
) -> Result<(), AllocError>
    requires stage { HasStage stage.now }
    requires samples { samples ≤ 1000 }
    requires rule { (rule ≡ 1) ⊎ (rule ≡ 2) }
    requires records { All (IsLoss samples) (map T.entry_of records.now) }
    requires within { AreWithin (map T.entry_of records.now) }
    ensures ok { OnOk result ((tree : Tree) → IsStage tree stage.now → out.new ≡ out.old ++ flat_map loss_bytes (net_records tree rule samples (map T.entry_of records.now))) }
    ensures unchanged { OnErr result (out.new ≡ out.old) }
{
    let run = Listed { records };
    let ceding = ceding_for(alloc, stage, &run)?;
    let ceded = ceded_of(alloc, &ceding, samples, rule, &run)?;
    put_behind(alloc, &ceding, samples, &ceded, records, out)
}
