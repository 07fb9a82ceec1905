//! The amounts of a summary's samples, one sample after the other.
//! The rules: docs/CALCULATION.md, "Kinds of exceedance curves".
ghost use Rattle.std.specs.Prelude.{◌≡◌, ◌≤◌, IfOk, IfSome};
ghost use Rattle.kt_cell.specs.Amounts.{amounts_of, of_sample};
ghost use Rattle.kt_period_cells.specs.SummaryRows.{group_entries, IsSummary};

use kt_money::OutOfMemory;
use kt_period_cells::SummaryCells;
use kt_ranks::{AmountList, samples_down};
use std::alloc::Global;
use std::marker::Model;

/// How many samples are gathered at once: their cells stand side by side in each row, so that a pass over the rows waits for memory once
/// for all of them.
const AT_ONCE: u32 = 32;

/// The amounts of a summary's samples, in cents. Those of some samples are gathered at once, in one pass over the rows, and taken one after
/// the other. Contracts see the summary.
#[derive(Drop)]
pub(crate) struct SampleAmounts<'a> {
    cells: SummaryCells<'a>,
    /// The sample of the first of the lists.
    last: u32,
    /// What was gathered and not taken yet: each list is of the sample before that of the list before it.
    lists: Vec<AmountList>,
}

impl<'a> Model for SampleAmounts<'a> {
    ghost use Rattle.kt_ranks.specs.AmountLists.{AreSamplesDown};
    ghost use Rattle.kt_period_cells.specs.SummaryRows.{group_entries};
    ghost use Rattle.kt_period_cells.specs.declared.group.SummaryCells.{SummaryCells};

    ghost Value = { SummaryCells };

    ghost view = { λ kept. kept.cells };

    ghost invariant = { λ kept. AreSamplesDown kept.cells.maxima (group_entries kept.cells) kept.last kept.lists.items };
}

impl<'a> SampleAmounts<'a> {
    /// Those of a summary. Asks for no memory.
    pub(crate) fn of(alloc: Global, cells: &SummaryCells<'a>) -> SampleAmounts<'a>
        ensures { result ≡ cells.now }
    {
        SampleAmounts {
            cells: *cells,
            last: 0,
            lists: Vec::new(alloc),
        }
    }

    /// Takes the amounts of a sample, where they are the next that were gathered.
    fn take_gathered(&mut self, sample: u32) -> Option<Vec<u64>>
        ensures same { self.new ≡ self.old }
        ensures value { IfSome result (λ found. found.items ≡ amounts_of self.old.maxima (of_sample sample) (group_entries self.old)) }
    {
        if sample as usize + self.lists.len() != self.last as usize + 1 {
            return None;
        }
        match self.lists.pop() {
            Some(found) => Some(found.into_amounts()),
            None => None,
        }
    }

    /// Takes the amounts of a sample, counted from 1. An error is want of memory.
    pub(crate) fn take(&mut self, alloc: Global, sample: u32) -> Result<Vec<u64>, OutOfMemory>
        requires group { IsSummary self.old }
        requires some { 1 ≤ sample }
        ensures same { self.new ≡ self.old }
        ensures value { IfOk result (λ found. found.items ≡ amounts_of self.old.maxima (of_sample sample) (group_entries self.old)) }
    {
        if let Some(found) = self.take_gathered(sample) {
            return Ok(found);
        }
        let last = sample
            .saturating_add(AT_ONCE - 1)
            .min(self.cells.samples)
            .max(sample);
        let mut lists = samples_down(&self.cells, alloc, last, last - sample + 1)?;
        let Some(found) = lists.pop() else {
            unreachable!()
        };
        self.last = last;
        self.lists = lists;
        Ok(found.into_amounts())
    }
}
