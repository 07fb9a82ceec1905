//! What takes the parts of a round: it adds the records of their blocks to the periods, and keeps the blocks.
//! The rules: docs/CALCULATION.md, "Periods"; docs/REFUSALS.md, "Order".
ghost use Rattle.std.specs.Prelude.{◌≡◌, ◌≤◌, [], List, All, IfErr, length, true};
ghost use Rattle.std.specs.List.{AllByRecursion};
ghost use Rattle.kt_cell.specs.Losses.{Added};
ghost use Rattle.kt_cell.specs.Standing.{StandsFor};
ghost use Rattle.kt_block.specs.Block.{AreSummaries};
ghost use Rattle.kt_tables.specs.Portfolio.{KeepsPeriods};
ghost use Rattle.kt_fold.specs.FoldKeeps.{KeepsFront, KeepsWhole};
ghost use Rattle.kt_fold.specs.ReadyParts.{AreReadyBlocks};
ghost use Rattle.kt_keys.specs.Refusals.{is_loaded};
ghost use Rattle.kt_rec.specs.declared.table.Table.TheVariants as table;
ghost use Rattle.kt_fold.specs.Folds.{AddsBlocks, IsGoodPart, fold_refusal};

use crate::adding::add_ready;
use crate::limit::CellLimit;
use crate::part::{PartBlock, RefusedRow};
use crate::ready::{ReadyBlocks, ReadyPart};
use kt_ends::Refusal;
use kt_event::EventBlock;
use kt_part::Fold;
use kt_period_cells::Cells;
use kt_tables::Portfolio;
use std::alloc::Global;
use std::marker::Model;
use std::mem::{forget, replace};

/// Why a fold stopped.
#[derive(Drop)]
pub enum FoldStop {
    /// A record of an event passes a limit of the cells.
    Cell {
        /// The event.
        event: u32,
        /// The limit.
        limit: CellLimit,
    },
    /// A footprint row is refused.
    Row(RefusedRow),
    /// Want of memory.
    OutOfMemory,
}

impl FoldStop {
    /// Why it refuses the run; `None` where memory was wanting.
    pub fn refusal(self) -> Option<Refusal>
        ensures { result ≡ fold_refusal self }
    {
        match self {
            FoldStop::Cell { event, limit } => Some(limit.refusal(event)),
            FoldStop::Row(row) => Some(row.refusal()),
            FoldStop::OutOfMemory => None,
        }
    }
}

/// Why adding blocks stopped, and how many were added before.
#[derive(Drop)]
pub(crate) struct BlockStop {
    pub(crate) place: usize,
    pub(crate) stop: FoldStop,
}

/// Adds the records of blocks, one after the other, up to the first that stops it.
fn add_blocks(
    portfolio: &Portfolio,
    cells: &mut Cells,
    blocks: &[EventBlock],
    mut ready: ReadyBlocks,
) -> Result<(), BlockStop>
    requires periods { KeepsPeriods portfolio.now.rows }
    requires same { cells.old.periods ≡ portfolio.now.rows.periods }
    requires good { AllByRecursion (λ block. AreSummaries cells.old.samples block.summaries) blocks.now }
    requires ready { AreReadyBlocks blocks.now ready }
    ensures added { (history : List Added) → StandsFor history cells.old → AddsBlocks portfolio.now.rows history blocks.now cells.new result }
    ensures within { IfErr result (λ at. at.place ≤ length blocks.now) }
    ensures size { (cells.new.periods ≡ cells.old.periods) × (cells.new.samples ≡ cells.old.samples) }
{
    for place in 0..blocks.len() {
        let own = ready.next(None);
        if let Err(stop) = add_ready(portfolio, cells, &blocks[place], own) {
            return Err(BlockStop { place, stop });
        }
    }
    Ok(())
}

/// The losses of all records that were added, and the parts of the round that is under way. Contracts see the rows of the tables,
/// the cells and the parts.
#[derive(Drop)]
pub struct RunFold<'a> {
    portfolio: &'a Portfolio,
    samples: u32,
    cells: Cells,
    kept: Vec<PartBlock>,
}

impl<'a> Model for RunFold<'a> {
    ghost use Rattle.kt_fold.specs.Folds.{FoldState};
    ghost use Rattle.kt_fold.specs.FoldKeeps.{IsFold};

    ghost Value = { FoldState };

    ghost view = { λ f. record { rows = f.portfolio.now.rows; cells = f.cells; kept = f.kept.items } };

    ghost invariant = { λ f. IsFold f.portfolio.now f.samples f.cells f.kept.items };
}

impl<'a> RunFold<'a> {
    /// No record was added yet.
    pub fn new(alloc: Global, portfolio: &'a Portfolio, samples: u32) -> RunFold<'a>
        requires loaded { is_loaded portfolio.now.need 0 table.Occurrence ≡ true }
        requires some { 1 ≤ samples }
        requires few { samples ≤ 1000 }
        ensures value { result ≡ record { rows = portfolio.now.rows; cells = record { periods = portfolio.now.rows.periods; samples = samples; entries = [] }; kept = [] } }
    {
        portfolio.keeps_periods();
        RunFold {
            portfolio,
            samples,
            cells: Cells::new(alloc, portfolio.periods(), samples),
            kept: Vec::new(alloc),
        }
    }

    /// The losses of all records that were added.
    pub fn cells(&self) -> &Cells
        ensures { result.now ≡ self.now.cells }
    {
        &self.cells
    }

    /// The portfolio of its tables.
    pub fn portfolio(&self) -> &'a Portfolio
        ensures { result.now.rows ≡ self.now.rows }
    {
        self.portfolio
    }

    /// The number of samples of the cells.
    pub fn samples(&self) -> u32
        ensures value { result ≡ self.now.cells.samples }
        ensures range { (1 ≤ result) × (result ≤ 1000) }
        ensures periods { self.now.cells.periods ≡ self.now.rows.periods }
        ensures good { AllByRecursion (IsGoodPart self.now.cells.samples) self.now.kept }
    {
        self.samples
    }

    /// Whether the parts of the next round are to come with ready cells: those of the rounds before were of use. It changes no output.
    pub fn ahead(&self) -> bool {
        self.cells.wants_more()
    }

    /// The parts that are kept.
    pub fn kept(&self) -> &[PartBlock]
        ensures { result.now ≡ self.now.kept }
    {
        &self.kept
    }

    /// Keeps no part any more. The memory of those of the last round is not given back: what comes then is the end of the process.
    pub fn let_go(&mut self, is_last: bool)
        ensures { self.new ≡ record self.old { kept = [] } }
    {
        let kept = replace(&mut self.kept, Vec::new(self.cells.alloc()));
        if is_last {
            forget(kept);
        }
    }

    /// Keeps a part whose blocks were added, and stops where a row was refused behind them. Where memory is wanting to keep it, the fold is as
    /// it was.
    fn keep_whole(&mut self, part: PartBlock) -> Result<(), FoldStop>
        requires good { IsGoodPart self.old.cells.samples part }
        ensures { KeepsWhole self.old part result self.new }
    {
        let refused = part.refused;
        if self.kept.push(part).is_err() {
            return Err(FoldStop::OutOfMemory);
        }
        match refused {
            Some(row) => Err(FoldStop::Row(row)),
            None => Ok(()),
        }
    }

    /// Keeps the blocks of a part that were added, and stops behind them. Where memory is wanting to keep them, the fold is as it was.
    fn keep_front(&mut self, part: PartBlock, at: BlockStop) -> FoldStop
        requires within { at.place ≤ length part.blocks }
        requires good { IsGoodPart self.old.cells.samples part }
        ensures { KeepsFront self.old part at result self.new }
    {
        let mut part = part;
        part.blocks.truncate(at.place);
        if self.kept.push(part).is_err() {
            return FoldStop::OutOfMemory;
        }
        at.stop
    }
}

impl<'a> Fold<ReadyPart> for RunFold<'a> {
    ghost use Rattle.kt_fold.specs.Folds.{FitsFold, FoldStart, StandsBehind, StopsBehind};

    type Stop = FoldStop;

    ghost Start = { FoldStart };

    ghost stands = { StandsBehind };

    ghost stopped = { StopsBehind };

    ghost fits = { FitsFold };

    fn take(&mut self, _k: u32, block: ReadyPart) -> Result<(), FoldStop> {
        self.portfolio.keeps_periods();
        let (part, ready) = block.split();
        match add_blocks(
            self.portfolio,
            &mut self.cells,
            part.blocks.as_slice(),
            ready,
        ) {
            Ok(()) => self.keep_whole(part),
            Err(at) => Err(self.keep_front(part, at)),
        }
    }
}
