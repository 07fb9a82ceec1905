//! What comes behind the last event in output files.
//! The rules: docs/OUTPUTS.md, "Files of a run".
ghost use Rattle.std.specs.Prelude.{◌≡◌, ◌++◌, List, OnOk, OnErr};
ghost use Rattle.kt_cell.specs.Losses.{Added, all_losses};
ghost use Rattle.kt_cell.specs.Standing.{StandsFor};
ghost use Rattle.kt_files.specs.EndTexts.{AreEndTexts};
ghost use Rattle.kt_files.specs.Parts.{end_text, table_end};
ghost use Rattle.kt_periods.specs.PeriodTables.{table_text};
ghost use Rattle.kt_periods.specs.declared.table.PeriodTable.TheVariants.{AverageAnnualLoss, ExceedanceCurve};
ghost use Rattle.kt_stream.specs.Write.{BeginsWith};
ghost use Rattle.kt_tables.specs.Lookups.{return_periods_of};

use crate::curves::{curves_of, find};
use crate::file::{OutputFile, SetTable};
use kt_block::SummarySet;
use kt_curve::{SetCurves, takes_maxima};
use kt_money::{Bytes, OutOfMemory};
use kt_outputs::Texts;
use kt_period_cells::Cells;
use kt_periods::{PeriodTable, append_curve, append_table};
use kt_rec::Curve;
use kt_tables::Portfolio;

/// Appends the average annual losses of a summary set. An error is want of memory.
fn push_averages(
    out: &mut Bytes,
    portfolio: &Portfolio,
    cells: &Cells,
    set: SummarySet,
) -> Result<(), OutOfMemory>
    ensures ok { (history : List Added) → StandsFor history cells.now → OnOk result (out.new ≡ out.old ++ table_text AverageAnnualLoss set.perspective set.set cells.now.periods cells.now.samples (return_periods_of portfolio.now.rows) (all_losses history)) }
    ensures kept { OnErr result (BeginsWith out.old out.new) }
{
    portfolio.is_valid();
    let returns = portfolio.return_periods();
    append_table(
        out,
        PeriodTable::AverageAnnualLoss,
        cells,
        set.perspective,
        set.set,
        returns,
    )
}

/// Appends an exceedance curve of a summary set, at the return periods of the portfolio: from what the curves of the set share, which is made
/// here where it was not made before. An error is want of memory.
fn push_curve(
    out: &mut Bytes,
    endings: &Endings<'_>,
    set: SummarySet,
    curve: Curve,
) -> Result<(), OutOfMemory>
    ensures ok { (history : List Added) → AreEndTexts history endings.now → OnOk result (out.new ≡ out.old ++ table_text (ExceedanceCurve curve) set.perspective set.set endings.now.cells.now.periods endings.now.cells.now.samples (return_periods_of endings.now.portfolio.now.rows) (all_losses history)) }
    ensures kept { OnErr result (BeginsWith out.old out.new) }
{
    let maxima = takes_maxima(curve);
    match find(endings.curves, set, maxima) {
        Some(shared) => append_curve(out, curve, shared),
        None => {
            let own = curves_of(endings.portfolio, endings.cells, set, maxima)?;
            append_curve(out, curve, &own)
        }
    }
}

/// Appends what comes at the end of a table of a summary set: the whole table where it is one over all periods. An error is want
/// of memory.
fn push_table(
    out: &mut Bytes,
    endings: &Endings<'_>,
    set: SummarySet,
    table: SetTable,
) -> Result<(), OutOfMemory>
    ensures ok { (history : List Added) → AreEndTexts history endings.now → OnOk result (out.new ≡ out.old ++ table_end endings.now.cells.now.samples endings.now.portfolio.now.rows set table history) }
    ensures kept { OnErr result (BeginsWith out.old out.new) }
{
    match table {
        SetTable::EventLoss | SetTable::PeriodLoss => Ok(()),
        SetTable::AverageAnnualLoss => push_averages(out, endings.portfolio, endings.cells, set),
        SetTable::ExceedanceCurve(curve) => push_curve(out, endings, set, curve),
    }
}

/// Appends what comes behind the last event in a file. An error is want of memory.
fn push_ending(out: &mut Bytes, endings: &Endings<'_>, file: OutputFile) -> Result<(), OutOfMemory>
    ensures ok { (history : List Added) → AreEndTexts history endings.now → OnOk result (out.new ≡ out.old ++ end_text endings.now.cells.now.samples endings.now.portfolio.now.rows history file) }
    ensures kept { OnErr result (BeginsWith out.old out.new) }
{
    match file {
        OutputFile::OfSet(set, table) => push_table(out, endings, set, table),
        OutputFile::Layers => Ok(()),
    }
}

/// What comes behind the last event in all files: the tables over all periods of what was added to cells.
#[derive(Clone, Copy)]
pub struct Endings<'a> {
    /// The tables of the run, whose return periods the curves have.
    pub portfolio: &'a Portfolio,
    /// The cells of all records, over the periods of the portfolio.
    pub cells: &'a Cells,
    /// What curves of these cells share, as `shared_curves` makes it; what is not among these is made where it is wanted.
    pub curves: &'a [SetCurves<'a>],
}

impl<'a> Texts<OutputFile> for Endings<'a> {
    ghost use Rattle.std.specs.Prelude.{List, [], ◌∷◌};
    ghost use Rattle.kt_cell.specs.Losses.{Added};
    ghost use Rattle.kt_files.specs.EndTexts.{AreEndTexts};
    ghost use Rattle.kt_files.specs.Parts.{end_text};

    ghost Start = { List Added };

    ghost are_of = { λ history texts. AreEndTexts history texts };

    ghost pieces_of = { λ history texts file. end_text texts.cells.now.samples texts.portfolio.now.rows history file ∷ [] };

    fn pieces(&self, _file: &OutputFile) -> usize {
        1
    }

    fn push(&self, file: &OutputFile, piece: usize, out: &mut Bytes) -> Result<(), OutOfMemory> {
        if piece == 0 {
            push_ending(out, self, *file)
        } else {
            Ok(())
        }
    }
}
