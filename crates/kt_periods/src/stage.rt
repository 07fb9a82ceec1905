//! The records of a summary stream, added up over the periods.
//! The rules: docs/CALCULATION.md, "Periods"; docs/REFUSALS.md, "Order".
use crate::stop::cell_stop;
use crate::table::{PeriodTable, append_table};
use kt_ends::ToolStop;
use kt_loop::Stage;
use kt_money::Bytes;
use kt_period_cells::Cells;
use kt_rec::Perspective;
use kt_stream::{Head, Placed, SummaryRecord};
use kt_tables::Portfolio;
use std::alloc::Global;

/// The losses of the periods, by the occurrences of a portfolio, and the table that is made of them.
#[derive(Drop)]
pub(crate) struct PeriodLosses<'a> {
    pub(crate) alloc: Global,
    /// The table that is written at the end.
    pub(crate) kind: PeriodTable,
    pub(crate) portfolio: &'a Portfolio,
    /// The cells, once the header is there.
    pub(crate) cells: Option<Cells>,
}

impl<'a> Stage<SummaryRecord, ()> for PeriodLosses<'a> {
    ghost use Rattle.kt_periods.specs.PeriodTables.{PeriodSums, period_calculation};
    ghost use Rattle.kt_periods.specs.Standing.{StandsAt, IsReady};
    ghost use Rattle.kt_stream.specs.Summary.{summary_shape};

    ghost State = { PeriodSums };

    ghost calculation = { period_calculation };

    ghost is_at = { λ sums stage _. StandsAt sums stage.kind stage.portfolio.now.rows stage.cells };

    ghost is_ready = { λ seen stage _. IsReady seen stage.portfolio.now stage.cells };

    ghost shape = { λ _. summary_shape };

    ghost inputs = { λ others _. others };

    fn open(&mut self, _beside: &mut (), head: Head, _out: &mut Bytes) -> Result<(), ToolStop> {
        self.portfolio.keeps_periods();
        let periods = self.portfolio.periods();
        self.cells = Some(Cells::new(self.alloc, periods, head.samples));
        Ok(())
    }

    fn take(
        &mut self,
        _beside: &mut (),
        head: Head,
        placed: &Placed<SummaryRecord>,
        _out: &mut Bytes,
    ) -> Result<(), ToolStop> {
        self.portfolio.keeps_periods();
        let entry = &placed.entry;
        let occurrences = self.portfolio.occurrences(entry.event);
        let Some(cells) = &mut self.cells else {
            unreachable!()
        };
        match cells.add(Perspective::Gul, head.set, entry, occurrences) {
            Ok(()) => Ok(()),
            Err(stop) => Err(cell_stop(entry.event, stop)),
        }
    }

    fn end(&mut self, _beside: &mut (), head: Head, out: &mut Bytes) -> Result<(), ToolStop> {
        self.portfolio.is_valid();
        let returns = self.portfolio.return_periods();
        let Some(cells) = &self.cells else {
            unreachable!()
        };
        append_table(out, self.kind, cells, Perspective::Gul, head.set, returns)?;
        Ok(())
    }
}
