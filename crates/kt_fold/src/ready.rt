//! The periods' cells of the events of a part, each by itself, which are made before the part is folded.
//! The rules: docs/ARCHITECTURE.md, "A run of all stages".
ghost use Rattle.std.specs.Prelude.{◌≡◌, ◌≤◌, All, IfOk, true};
ghost use Rattle.std.specs.List.{AllByRecursion};
ghost use Rattle.kt_block.specs.Block.{AreSummaries};
ghost use Rattle.kt_keys.specs.Refusals.{is_loaded};
ghost use Rattle.kt_rec.specs.declared.table.Table.TheVariants as table;
ghost use Rattle.kt_fold.specs.ReadyParts.{AreReadyBlocks, IsOfEvent, IsReadyBlock};
ghost use Rattle.kt_fold.specs.Folds.{IsGoodPart};

use crate::adding::add_block;
use crate::part::PartBlock;
use crate::ready_list::ReadyList;
use kt_event::{EventBlock, Summaries};
use kt_period_cells::Cells;
use kt_rec::Occurrence;
use kt_tables::Portfolio;
use std::alloc::{AllocError, Global};
use std::marker::Model;

/// The cells of the records of an event's block alone, and the occurrences of the event in which they are.
#[derive(Drop)]
pub(crate) struct ReadyBlock {
    /// The cells.
    pub(crate) cells: Cells,
    /// The occurrences.
    pub(crate) at: Vec<Occurrence>,
}

/// The cells of blocks, block by block, each by itself; `None` for a block of which none were made.
pub(crate) type ReadyBlocks = ReadyList<Option<ReadyBlock>>;

/// A part with ready cells of its blocks, as far as they were made. Contracts see the part.
#[derive(Drop)]
pub struct ReadyPart {
    part: PartBlock,
    ready: ReadyBlocks,
}

impl Model for ReadyPart {
    ghost use Rattle.kt_fold.specs.ReadyParts.{AreReadyBlocks};
    ghost use Rattle.kt_fold.specs.declared.part.PartBlock.{PartBlock};

    ghost Value = { PartBlock };

    ghost view = { λ p. p.part };

    ghost invariant = { λ p. AreReadyBlocks p.part.blocks p.ready };
}

/// The most cells for which the rows of ready cells of a part have places: 4 MiB of them.
const MOST_READY_CELLS: u64 = 1 << 18;

/// How many rows the ready cells of a block have at the most.
fn rows_of(portfolio: &Portfolio, block: &EventBlock) -> u64 {
    let occurrences = portfolio.occurrences(block.event).len() as u64;
    let mut rows = 0u64;
    for summaries in block.summaries.as_slice() {
        let records = summaries.records.as_slice().len() as u64;
        rows = rows.saturating_add(records.saturating_mul(occurrences));
    }
    rows
}

/// For how many cells the rows of ready cells of blocks may have places.
fn cells_of_rows(portfolio: &Portfolio, samples: u32, blocks: &[EventBlock]) -> u64 {
    let mut rows = 0u64;
    for block in blocks {
        rows = rows.saturating_add(rows_of(portfolio, block));
    }
    rows.saturating_mul(u64::from(samples) + 1)
}

impl ReadyPart {
    /// A part with the cells of each of its blocks where they are to be made ahead and are not too many, and with none otherwise. The
    /// occurrences of the portfolio are loaded, and the records are those of a stream with so many samples, from 1 to 1,000. An error is
    /// want of memory.
    pub fn new(
        alloc: Global,
        portfolio: &Portfolio,
        samples: u32,
        part: PartBlock,
        ahead: bool,
    ) -> Result<ReadyPart, AllocError>
        requires loaded { is_loaded portfolio.now.need 0 table.Occurrence ≡ true }
        requires some { 1 ≤ samples }
        requires few { samples ≤ 1000 }
        requires good { IsGoodPart samples part }
        ensures { IfOk result (λ made. made ≡ part) }
    {
        if !ahead || MOST_READY_CELLS < cells_of_rows(portfolio, samples, part.blocks.as_slice()) {
            return Ok(ReadyPart {
                part,
                ready: ReadyList::none(alloc),
            });
        }
        let ready = ready_blocks(alloc, portfolio, samples, part.blocks.as_slice())?;
        Ok(ReadyPart { part, ready })
    }

    /// The part, and the ready cells of its blocks.
    pub(crate) fn split(self) -> (PartBlock, ReadyBlocks)
        ensures part { result.0 ≡ self }
        ensures ready { AreReadyBlocks self.blocks result.1 }
    {
        (self.part, self.ready)
    }
}

/// Whether all records of summaries are of an event.
fn are_of(summaries: &Summaries, event: u32) -> bool
    ensures { result ≡ true → All (λ entry. entry.event ≡ event) summaries.now.records }
{
    for entry in summaries.records.as_slice() {
        if entry.event != event {
            return false;
        }
    }
    true
}

/// Whether all records of an event's block are of the event.
fn is_of_event(block: &EventBlock) -> bool
    ensures { result ≡ true → IsOfEvent block.now }
{
    for summaries in block.summaries.as_slice() {
        if !are_of(summaries, block.event) {
            return false;
        }
    }
    true
}

/// The cells of the records of an event's block alone; `None` where one of them is refused, or memory for the cells is wanting. An error is
/// want of memory for the occurrences.
fn ready_block(
    alloc: Global,
    portfolio: &Portfolio,
    samples: u32,
    block: &EventBlock,
) -> Result<Option<ReadyBlock>, AllocError>
    requires loaded { is_loaded portfolio.now.need 0 table.Occurrence ≡ true }
    requires some { 1 ≤ samples }
    requires few { samples ≤ 1000 }
    requires good { AreSummaries samples block.now.summaries }
    ensures { IfOk result (IsReadyBlock block.now) }
{
    if !is_of_event(block) {
        return Ok(None);
    }
    portfolio.keeps_periods();
    let rows = rows_of(portfolio, block) as usize;
    let Ok(mut cells) = Cells::with_room(alloc, portfolio.periods(), samples, rows) else {
        return Ok(None);
    };
    if let Err(_) = add_block(portfolio, &mut cells, block) {
        return Ok(None);
    }
    let mut at = Vec::new(alloc);
    at.extend_from_slice(portfolio.occurrences(block.event))?;
    Ok(Some(ReadyBlock { cells, at }))
}

/// The cells of blocks, each by itself.
fn ready_blocks(
    alloc: Global,
    portfolio: &Portfolio,
    samples: u32,
    blocks: &[EventBlock],
) -> Result<ReadyBlocks, AllocError>
    requires loaded { is_loaded portfolio.now.need 0 table.Occurrence ≡ true }
    requires some { 1 ≤ samples }
    requires few { samples ≤ 1000 }
    requires good { AllByRecursion (λ block. AreSummaries samples block.summaries) blocks.now }
    ensures { IfOk result (AreReadyBlocks blocks.now) }
{
    let mut ready = ReadyList::none(alloc);
    for block in blocks {
        let own = ready_block(alloc, portfolio, samples, block)?;
        ready.push(own)?;
    }
    Ok(ready)
}
