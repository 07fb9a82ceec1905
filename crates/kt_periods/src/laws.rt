//! What holds of the tables over all periods, as functions with an empty body.
//! The rules: docs/COMMANDS.md, "aalcalc" and "leccalc"; docs/OUTPUTS.md, "Files of a run".
ghost use Rattle.std.specs.Prelude.{◌≡◌, List, [], Some, None};
ghost use Rattle.kt_cell.specs.Losses.{Added, all_losses};
ghost use Rattle.kt_curve.specs.OwnLosses.{own_records};
ghost use Rattle.kt_ends.specs.declared.status.Status.TheVariants.{Done};
ghost use Rattle.kt_loop.specs.Outcome.{gives};
ghost use Rattle.kt_rec.specs.Rows.{Rows};
ghost use Rattle.kt_rec.specs.declared.perspective.Perspective.{Perspective};
ghost use Rattle.kt_rec.specs.declared.perspective.Perspective.TheVariants.{Gul};
ghost use Rattle.kt_stream.specs.declared.entry.Placed.{Placed};
ghost use Rattle.kt_stream.specs.declared.entry.SummaryRecord.{SummaryRecord};
ghost use Rattle.kt_stream.specs.declared.kind.Head.{Head};
ghost use Rattle.kt_tables.specs.Lookups.{return_periods_of};
ghost use Rattle.kt_periods.specs.Adding.{all_added, first_refusal};
ghost use Rattle.kt_periods.specs.PeriodTables.{contents_outcome, table_text};
ghost use Rattle.kt_periods.specs.declared.table.PeriodTable.{PeriodTable};

/// A stream of the own records of a set of a perspective gives the table that the set has among the records of many, where none of
/// these is refused: the average annual losses, or a curve.
pub fn a_stream_of_a_set_gives_its_table()
    ensures { (kind : PeriodTable) (rows : Rows) (perspective : Perspective) (head : Head) (entries : List (Placed SummaryRecord)) (history : List Added) → own_records perspective head.set Gul history ≡ all_added rows head entries → first_refusal [] history ≡ None → contents_outcome kind rows (record { head = Some head; entries = entries; fault = None }) ≡ gives Done (table_text kind perspective head.set rows.periods head.samples (return_periods_of rows) (all_losses history)) }
{}
