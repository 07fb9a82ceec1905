//! The tables over all periods, and their texts.
//! The rules: docs/OUTPUTS.md, "Average annual loss table" and "Exceedance curve tables".
ghost use Rattle.std.specs.Prelude.{◌≡◌, ◌≤◌, ◌++◌, ℕ, List, All, OnOk, OnErr};
ghost use Rattle.kt_rec.specs.declared.perspective.Perspective.{Perspective};
ghost use Rattle.kt_stream.specs.Write.{BeginsWith};
ghost use Rattle.kt_cell.specs.Losses.{Added, all_losses};
ghost use Rattle.kt_cell.specs.Standing.{KeptCells, StandsFor};
ghost use Rattle.kt_curve.specs.Exceedance.{takes_maxima};
ghost use Rattle.kt_curve.specs.SetsOfCurves.{AreCurvesOf};
ghost use Rattle.kt_periods.specs.PeriodTables.{table_text};
ghost use Rattle.kt_periods.specs.declared.table.PeriodTable.TheVariants.{ExceedanceCurve};

use kt_curve::{SetCurves, aal_heading, aal_text, lec_heading, lec_text};
use kt_money::{Bytes, OutOfMemory};
use kt_period_cells::Cells;
use kt_rec::{Curve, Perspective};

/// A table of a summary stream over all periods.
#[derive(Clone, Copy)]
pub enum PeriodTable {
    /// The average annual loss of each summary.
    AverageAnnualLoss,
    /// An exceedance curve of each summary.
    ExceedanceCurve(Curve),
}

/// Appends the names of a table's columns, and then its rows of a set of a perspective: those of the cells, at these return
/// periods where it is a curve. An error is want of memory; then some of the table may stand behind what was there.
pub fn append_table(
    out: &mut Bytes,
    kind: PeriodTable,
    cells: &Cells,
    perspective: Perspective,
    set: u32,
    returns: &[u32],
) -> Result<(), OutOfMemory>
    requires { All (λ period. 1 ≤ period) returns.now }
    ensures ok { (history : List Added) → StandsFor history cells.now → OnOk result (out.new ≡ out.old ++ table_text kind perspective set cells.now.periods cells.now.samples returns.now (all_losses history)) }

    ensures kept { OnErr result (BeginsWith out.old out.new) }
{
    match kind {
        PeriodTable::AverageAnnualLoss => {
            out.append(aal_heading())?;
            aal_text(out, cells, perspective, set)
        }
        PeriodTable::ExceedanceCurve(curve) => {
            out.append(lec_heading(curve))?;
            lec_text(out, cells, perspective, set, curve, returns)
        }
    }
}

/// Appends the names of a curve's columns, and then its rows, from what the curves of its set share. An error is want of memory; then
/// some of the table may stand behind what was there.
pub fn append_curve(
    out: &mut Bytes,
    curve: Curve,
    shared: &SetCurves<'_>,
) -> Result<(), OutOfMemory>
    ensures ok { (kept : KeptCells) (perspective : Perspective) (set : ℕ) (returns : List ℕ) (history : List Added) → AreCurvesOf kept perspective set (takes_maxima curve) returns shared.now → StandsFor history kept → OnOk result (out.new ≡ out.old ++ table_text (ExceedanceCurve curve) perspective set kept.periods kept.samples returns (all_losses history)) }

    ensures kept { OnErr result (BeginsWith out.old out.new) }
{
    out.append(lec_heading(curve))?;
    shared.append(out, curve)
}
