//! The tools over the tables of a portfolio: average annual losses, and exceedance curves.
//! The rules: docs/COMMANDS.md, "aalcalc" and "leccalc".
ghost use Rattle.std.specs.Prelude.{◌≡◌, true};
ghost use Rattle.kt_ends.specs.Ending.{StreamToolEnds};
ghost use Rattle.kt_keys.specs.Refusals.{is_loaded};
ghost use Rattle.kt_loop.specs.Running.{stream_uses};
ghost use Rattle.kt_periods.specs.PeriodTables.{aal_rows_outcome, lec_rows_outcome, period_outcome};
ghost use Rattle.kt_rec.specs.declared.table.Table.TheVariants as table;

use crate::stage::PeriodLosses;
use crate::table::PeriodTable;
use kt_ends::ToolStop;
use kt_loop::run_stage;
use kt_out::{Sink, Source};
use kt_rec::Curve;
use kt_stream::SummaryReader;
use kt_tables::Portfolio;
use std::alloc::Global;

/// Reads a summary stream to its end and writes a table of its losses over all periods.
fn write_table<S: Source, K: Sink>(
    alloc: Global,
    kind: PeriodTable,
    portfolio: &Portfolio,
    source: &mut S,
    sink: &mut K,
) -> Result<(), ToolStop>
    requires loaded { is_loaded portfolio.now.need 0 table.Occurrence ≡ true }
    ensures { StreamToolEnds (stream_uses true) (λ _ bytes. period_outcome kind portfolio.now.rows bytes) (S.state source.old) (S.state source.new) (K.state sink.old) (K.state sink.new) result }
{
    let mut reader = SummaryReader::new(alloc);
    let mut stage = PeriodLosses {
        alloc,
        kind,
        portfolio,
        cells: None,
    };
    run_stage(alloc, &mut reader, &mut stage, &mut (), source, sink)
}

/// Reads a summary stream to its end, and writes the average annual losses of its set by the occurrences of a portfolio,
/// which are loaded: nothing where the stream or a record is refused.
pub fn write_average_annual_losses<S: Source, K: Sink>(
    alloc: Global,
    portfolio: &Portfolio,
    source: &mut S,
    sink: &mut K,
) -> Result<(), ToolStop>
    requires loaded { is_loaded portfolio.now.need 0 table.Occurrence ≡ true }
    ensures { StreamToolEnds (stream_uses true) (λ _ bytes. aal_rows_outcome portfolio.now.rows bytes) (S.state source.old) (S.state source.new) (K.state sink.old) (K.state sink.new) result }
{
    write_table(
        alloc,
        PeriodTable::AverageAnnualLoss,
        portfolio,
        source,
        sink,
    )
}

/// Reads a summary stream to its end, and writes an exceedance curve of its set by the occurrences and at the return periods
/// of a portfolio, of which the occurrences are loaded: nothing where the stream or a record is refused.
pub fn write_exceedance_curve<S: Source, K: Sink>(
    alloc: Global,
    curve: Curve,
    portfolio: &Portfolio,
    source: &mut S,
    sink: &mut K,
) -> Result<(), ToolStop>
    requires loaded { is_loaded portfolio.now.need 0 table.Occurrence ≡ true }
    ensures { StreamToolEnds (stream_uses true) (λ _ bytes. lec_rows_outcome curve portfolio.now.rows bytes) (S.state source.old) (S.state source.new) (K.state sink.old) (K.state sink.new) result }
{
    write_table(
        alloc,
        PeriodTable::ExceedanceCurve(curve),
        portfolio,
        source,
        sink,
    )
}
