//! What a run of all stages tells of the tools that make its stages one by one: theorems, as functions with an empty body.
//! The rules: docs/COMMANDS.md; docs/REFUSALS.md, "Order".
ghost use Rattle.std.specs.Prelude.{◌≡◌, ◌<◌, ℕ, Bool, true, List, Ok, Some, IfSome};
ghost use Rattle.kt_ends.specs.declared.status.Status.TheVariants.{Done};
ghost use Rattle.kt_event.specs.Needs.{chain_need};
ghost use Rattle.kt_block.specs.Terms.{AreTerms};
ghost use Rattle.kt_block.specs.declared.terms.Terms.{Terms};
ghost use Rattle.kt_gul.specs.GroundUp.{ground_up_records};
ghost use Rattle.kt_alloc.specs.Insured.{insured_records};
ghost use Rattle.kt_keys.specs.Refusals.{is_loaded};
ghost use Rattle.kt_keys.specs.declared.need.Need.{Need};
ghost use Rattle.kt_load.specs.Loaded.{loaded};
ghost use Rattle.kt_loop.specs.Contents.{Contents};
ghost use Rattle.kt_model.specs.Distribution.{distributions_of};
ghost use Rattle.kt_out.specs.NamedFiles.{FileMap};
ghost use Rattle.kt_periods.specs.PeriodTables.{contents_outcome};
ghost use Rattle.kt_periods.specs.declared.table.PeriodTable.TheVariants.{AverageAnnualLoss, ExceedanceCurve};
ghost use Rattle.kt_rec.specs.Rows.{Rows};
ghost use Rattle.kt_rec.specs.declared.curve.Curve.{Curve};
ghost use Rattle.kt_rec.specs.declared.hazard.FootRow.{FootRow};
ghost use Rattle.kt_rec.specs.declared.perspective.Perspective.TheVariants.{Gul, Il};
ghost use Rattle.kt_rec.specs.declared.perspective.Perspective.{Perspective};
ghost use Rattle.kt_rec.specs.declared.table.Table.TheVariants as table;
ghost use Rattle.kt_ri.specs.Reinsurance.{net_records};
ghost use Rattle.kt_stream.specs.declared.entry.Cdf.{Cdf};
ghost use Rattle.kt_stream.specs.declared.entry.LossRecord.{LossRecord};
ghost use Rattle.kt_stream.specs.declared.entry.SummaryRecord.{SummaryRecord};
ghost use Rattle.kt_stream.specs.declared.kind.Head.{Head};
ghost use Rattle.kt_subset.specs.Loading.{LoadsSame};
ghost use Rattle.kt_subset.specs.SameRows.{HasSame};
ghost use Rattle.kt_subset.specs.Within.{IsWithin};
ghost use Rattle.kt_sum.specs.Summaries.{run_summaries};
ghost use Rattle.kt_tables.specs.Lookups.{event_ids};
ghost use Rattle.kt_fmtree.specs.Programme.{tree_of};
ghost use Rattle.kt_words.specs.declared.command.Command.TheVariants.{Chain};
ghost use Rattle.kt_words.specs.declared.command.Command.{Command};
ghost use Rattle.kt_tools.specs.Needs.{chain_terms, command_need};
ghost use Rattle.kt_tools.specs.Outcome.{command_outcome};
ghost use Rattle.kt_split.specs.RunDone.{IsDoneRun};
ghost use Rattle.kt_split.specs.RunNeeds.{IsOfRun};
ghost use Rattle.kt_split.specs.RunRows.{NeedsTree};

/// What a tool needs of the tables lies within what the run of all stages needs whose stage it makes: with the run's samples, an
/// allocation rule that is 0 where the run's is, and a stage that the run has. So its tables load where the run's do, with the same rows.
pub fn tools_of_a_run_need_no_more()
    ensures within { (terms : Terms) → AreTerms terms → (command : Command) → IsOfRun terms command → IfSome (command_need command) (λ need. IsWithin need (chain_need terms)) }
    ensures loads { (files : FileMap) (terms : Terms) (rows : Rows) → AreTerms terms → loaded files (chain_need terms) ≡ Ok rows → (command : Command) (need : Need) → IsOfRun terms command → command_need command ≡ Some need → LoadsSame files need rows }
{}

/// Where a run of all stages ends with all its tables, its own have loaded from the input files, and over their rows it is done.
pub fn a_done_run_has_loaded()
    ensures { (words : List (List ℕ)) (samples : ℕ) (cut : Bool) (rule : ℕ) (last : Perspective) (stages workers batch : ℕ) (files : FileMap) (source : List ℕ) → (command_outcome words (Chain samples cut rule last stages workers batch) files source).status ≡ Done → IsDoneRun files (chain_terms samples cut rule last stages) }
{}

/// What a stage computes depends on the rows that it needs: where the rows of the tables of a need are the same, so are the events and
/// their distributions, ground-up, insured and net losses, summaries, and the tables over all periods.
pub fn stages_depend_on_what_they_need()
    ensures events { (need : Need) (own rows : Rows) → HasSame need own rows → is_loaded need 0 table.Events ≡ true → event_ids own ≡ event_ids rows }
    ensures distributions { (need : Need) (own rows : Rows) → HasSame need own rows → is_loaded need 0 table.Items ≡ true → is_loaded need 0 table.Vulnerability ≡ true → is_loaded need 0 table.DamageBinDict ≡ true → (event : ℕ) (foot : List FootRow) → distributions_of own event foot ≡ distributions_of rows event foot }
    ensures ground_up { (need : Need) (own rows : Rows) → HasSame need own rows → is_loaded need 0 table.Items ≡ true → is_loaded need 0 table.Coverages ≡ true → is_loaded need 0 table.DamageBinDict ≡ true → is_loaded need 0 table.Random ≡ true → (samples : ℕ) (cut : Bool) (event : ℕ) (cdfs : List Cdf) → ground_up_records own samples cut event cdfs ≡ ground_up_records rows samples cut event cdfs }
    ensures insured { (need : Need) (own rows : Rows) → HasSame need own rows → NeedsTree need 0 → (rule samples : ℕ) (records : List LossRecord) → insured_records (tree_of own 0) rule samples own.fm_xref records ≡ insured_records (tree_of rows 0) rule samples rows.fm_xref records }
    ensures net { (need : Need) (own rows : Rows) → HasSame need own rows → (stage : ℕ) → stage < 10 → NeedsTree need stage → (rule samples : ℕ) (records : List LossRecord) → net_records (tree_of own stage) rule samples records ≡ net_records (tree_of rows stage) rule samples records }
    ensures item_summaries { (need : Need) (own rows : Rows) → HasSame need own rows → is_loaded need 0 table.Items ≡ true → is_loaded need 0 table.Coverages ≡ true → is_loaded need 0 table.GulSummaryXref ≡ true → (rule set : ℕ) (records : List LossRecord) → run_summaries Gul own rule set records ≡ run_summaries Gul rows rule set records }
    ensures output_summaries { (need : Need) (own rows : Rows) → HasSame need own rows → is_loaded need 0 table.Items ≡ true → is_loaded need 0 table.Coverages ≡ true → is_loaded need 0 table.FmProgramme ≡ true → is_loaded need 0 table.FmXref ≡ true → is_loaded need 0 table.FmSummaryXref ≡ true → (rule set : ℕ) (records : List LossRecord) → run_summaries Il own rule set records ≡ run_summaries Il rows rule set records }
    ensures averages { (need : Need) (own rows : Rows) → HasSame need own rows → is_loaded need 0 table.Occurrence ≡ true → (contents : Contents Head SummaryRecord) → contents_outcome AverageAnnualLoss own contents ≡ contents_outcome AverageAnnualLoss rows contents }
    ensures curves { (need : Need) (own rows : Rows) → HasSame need own rows → is_loaded need 0 table.Occurrence ≡ true → is_loaded need 0 table.ReturnPeriods ≡ true → (curve : Curve) (contents : Contents Head SummaryRecord) → contents_outcome (ExceedanceCurve curve) own contents ≡ contents_outcome (ExceedanceCurve curve) rows contents }
{}
