//! What an event adds to the output files.
//! The rules: docs/OUTPUTS.md, "Files of a run".
ghost use Rattle.std.specs.Prelude.{◌≡◌, ◌++◌, ◌≤◌, All, OnOk, OnErr};
ghost use Rattle.std.specs.List.{flat_map};
ghost use Rattle.kt_cell.specs.Losses.{same_perspective};
ghost use Rattle.kt_block.specs.Block.{AreSummaries};
ghost use Rattle.kt_files.specs.Parts.{block_text, is_of_set, record_rows, records_of_set};
ghost use Rattle.kt_files.specs.declared.file.SetTable.TheVariants.{EventLoss, PeriodLoss};
ghost use Rattle.kt_stream.specs.Summary.{IsSummary};
ghost use Rattle.kt_stream.specs.Write.{BeginsWith};

use crate::file::{OutputFile, SetTable};
use crate::layers::push_layers;
use kt_block::{EventBlock, Summaries, SummarySet};
use kt_elt::{elt_text, plt_record_text};
use kt_money::{Bytes, OutOfMemory};
use kt_rec::Perspective;
use kt_stream::SummaryRecord;
use kt_tables::Portfolio;

/// Whether two perspectives are the same.
pub(crate) fn is_same(one: Perspective, other: Perspective) -> bool
    ensures { result ≡ same_perspective one other }
{
    match (one, other) {
        (Perspective::Gul, Perspective::Gul)
        | (Perspective::Il, Perspective::Il)
        | (Perspective::Ri, Perspective::Ri) => true,
        _ => false,
    }
}

/// Whether summaries are those of a set.
fn is_of_set(set: SummarySet, summaries: &Summaries) -> bool
    ensures { result ≡ is_of_set set summaries.now }
{
    is_same(summaries.perspective, set.perspective) && summaries.set == set.set
}

/// The records of a set among summaries.
fn records_of_set(set: SummarySet, summaries: &[Summaries]) -> &[SummaryRecord]
    ensures { result.now ≡ records_of_set set summaries.now }
{
    for one in summaries {
        if is_of_set(set, one) {
            return one.records.as_slice();
        }
    }
    &[]
}

/// Appends the rows of records in an event loss table. An error is want of memory.
fn push_event_losses(
    out: &mut Bytes,
    portfolio: &Portfolio,
    samples: u32,
    records: &[SummaryRecord],
) -> Result<(), OutOfMemory>
    requires some { 1 ≤ samples }
    requires few { samples ≤ 1000 }
    requires records { All (IsSummary samples) records.now }
    ensures ok { OnOk result (out.new ≡ out.old ++ flat_map (record_rows samples portfolio.now.rows EventLoss) records.now) }
    ensures kept { OnErr result (BeginsWith out.old out.new) }
{
    for entry in records {
        elt_text(out, samples, entry)?;
    }
    Ok(())
}

/// Appends the rows of records in a period loss table, by the occurrences of their events. An error is want of memory.
fn push_period_losses(
    out: &mut Bytes,
    portfolio: &Portfolio,
    samples: u32,
    records: &[SummaryRecord],
) -> Result<(), OutOfMemory>
    requires some { 1 ≤ samples }
    requires few { samples ≤ 1000 }
    requires records { All (IsSummary samples) records.now }
    ensures ok { OnOk result (out.new ≡ out.old ++ flat_map (record_rows samples portfolio.now.rows PeriodLoss) records.now) }
    ensures kept { OnErr result (BeginsWith out.old out.new) }
{
    for entry in records {
        plt_record_text(out, samples, entry, portfolio.occurrences(entry.event))?;
    }
    Ok(())
}

/// Appends the rows of records in a table of a summary set; the tables over all periods gain none. An error is want of memory.
fn push_records(
    out: &mut Bytes,
    portfolio: &Portfolio,
    samples: u32,
    table: SetTable,
    records: &[SummaryRecord],
) -> Result<(), OutOfMemory>
    requires some { 1 ≤ samples }
    requires few { samples ≤ 1000 }
    requires records { All (IsSummary samples) records.now }
    ensures ok { OnOk result (out.new ≡ out.old ++ flat_map (record_rows samples portfolio.now.rows table) records.now) }
    ensures kept { OnErr result (BeginsWith out.old out.new) }
{
    match table {
        SetTable::EventLoss => push_event_losses(out, portfolio, samples, records),
        SetTable::PeriodLoss => push_period_losses(out, portfolio, samples, records),
        SetTable::AverageAnnualLoss | SetTable::ExceedanceCurve(_) => Ok(()),
    }
}

/// Appends what the block of an event adds to a file: the rows of its records in the event loss table and in the period loss
/// table of each summary set, and those of its layers. The records are those of a stream with `samples` samples, from 1 to
/// 1,000. An error is want of memory; then some of the rows may stand behind what was there.
pub(crate) fn push_block(
    out: &mut Bytes,
    portfolio: &Portfolio,
    samples: u32,
    file: &OutputFile,
    block: &EventBlock,
) -> Result<(), OutOfMemory>
    requires some { 1 ≤ samples }
    requires few { samples ≤ 1000 }
    requires records { AreSummaries samples block.now.summaries }
    ensures value { OnOk result (out.new ≡ out.old ++ block_text samples portfolio.now.rows file.now block.now) }
    ensures kept { OnErr result (BeginsWith out.old out.new) }
{
    match *file {
        OutputFile::OfSet(set, table) => {
            let records = records_of_set(set, block.summaries.as_slice());
            push_records(out, portfolio, samples, table, records)
        }
        OutputFile::Layers => push_layers(out, block.layers.as_slice()),
    }
}
