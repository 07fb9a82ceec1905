//! What holds of every run, as functions that do nothing.
//! The rules: docs/REFUSALS.md, "Order"; docs/OUTPUTS.md, "Files of a run".
ghost use Rattle.std.specs.Prelude.{◌≡◌, ℕ, All, List, [], map, Ok, Some, None, true};
ghost use Rattle.std.specs.List.{flat_map};
ghost use Rattle.kt_ends.specs.declared.status.Refusal.{Refusal};
ghost use Rattle.kt_ends.specs.declared.status.Status.TheVariants.{Done};
ghost use Rattle.kt_event.specs.Needs.{chain_need};
ghost use Rattle.kt_block.specs.Terms.{AreTerms, has_insured};
ghost use Rattle.kt_block.specs.declared.terms.SummarySet.{SummarySet};
ghost use Rattle.kt_block.specs.declared.terms.Terms.{Terms};
ghost use Rattle.kt_files.specs.declared.file.OutputFile.TheVariants.{OfSet};
ghost use Rattle.kt_files.specs.declared.file.SetTable.TheVariants.{AverageAnnualLoss, ExceedanceCurve};
ghost use Rattle.kt_alloc.specs.Whole.{IsSharedOut};
ghost use Rattle.kt_load.specs.Loaded.{loaded};
ghost use Rattle.kt_loop.specs.Outcome.{gives};
ghost use Rattle.kt_out.specs.NamedFiles.{FileMap};
ghost use Rattle.kt_periods.specs.PeriodTables.{contents_outcome};
ghost use Rattle.kt_periods.specs.declared.table.PeriodTable.{PeriodTable};
ghost use Rattle.kt_rec.specs.Rows.{Rows};
ghost use Rattle.kt_rec.specs.declared.curve.Curve.{Curve};
ghost use Rattle.kt_stream.specs.declared.entry.Placed.{Placed};
ghost use Rattle.kt_stream.specs.declared.entry.SummaryRecord.{SummaryRecord};
ghost use Rattle.kt_stream.specs.declared.kind.Head.{Head};
ghost use Rattle.kt_tables.specs.Lookups.{event_ids};
ghost use Rattle.kt_chain.specs.DoneLaws.{RefusesNothing};
ghost use Rattle.kt_chain.specs.Events.{RunInput, block_of, event_losses, run_input};
ghost use Rattle.kt_chain.specs.Files.{files_upto, text_upto, text_whole};
ghost use Rattle.kt_chain.specs.Outcome.{chain_outcome, event_refusal, run_reaches};
ghost use Rattle.kt_chain.specs.Reached.{AreFirst, NextIsRefused, NoneRefused};
ghost use Rattle.kt_chain.specs.SetRecords.{file_table, set_records};

use kt_alloc::laws::losses_are_shared_out_whole;
use kt_load::laws::rows_that_load_are_a_portfolio;

/// However far a run comes, the events that are done are the first of the list, and none of them is refused, each behind those before it.
/// Where the run is refused, the next event of the list is the one that is refused, behind all that are done and for the reason that is
/// answered.
pub fn the_done_events_are_the_first()
    ensures first { (run : RunInput) → AreFirst (run_reaches run).done (event_ids run.rows) }
    ensures passed { (run : RunInput) → NoneRefused (event_refusal run) [] (run_reaches run).done }
    ensures next { (run : RunInput) (why : Refusal) → (run_reaches run).refusal ≡ Some why → NextIsRefused (event_refusal run) (run_reaches run).done (event_ids run.rows) why }
{}

/// Where an event is refused the files hold the rows of the events that are done; of those no average annual loss and no
/// exceedance curve has a row, nor its heading.
pub fn tables_over_all_periods_stand_empty_after_a_refusal()
    ensures files { (run : RunInput) (why : Refusal) → (run_reaches run).refusal ≡ Some why → (chain_outcome run).files ≡ files_upto run (run_reaches run).done }
    ensures averages { (run : RunInput) (done : List ℕ) (set : SummarySet) → text_upto run done (OfSet set AverageAnnualLoss) ≡ [] }
    ensures curves { (run : RunInput) (done : List ℕ) (set : SummarySet) (curve : Curve) → text_upto run done (OfSet set (ExceedanceCurve curve)) ≡ [] }
{}

/// Whatever a run comes to whose tables load, the policy loss of each layer is shared out whole in each of its events, whatever the
/// footprint rows of the event are. The last two columns of the file of the layers are the same in each row (`layers`); and the outputs of
/// a layer, and their records, have at the mean and at each sample what the layer pays of the event's ground-up losses (`shared`).
pub fn layers_are_shared_out_whole()
    ensures layers { (files : FileMap) (terms : Terms) (rows : Rows) → AreTerms terms → loaded files (chain_need terms) ≡ Ok rows → (event : ℕ) → All (λ entry. entry.allocated ≡ entry.policy) (block_of (run_input terms rows files) event).layers }
    ensures shared { (files : FileMap) (terms : Terms) (rows : Rows) → AreTerms terms → loaded files (chain_need terms) ≡ Ok rows → has_insured terms.last ≡ true → (event : ℕ) → IsSharedOut rows terms.rule terms.samples (event_losses (run_input terms rows files) event) }
{
    rows_that_load_are_a_portfolio();
    losses_are_shared_out_whole();
}

/// A run that ends with all its tables refuses nothing: all its events are done, no footprint row of one is refused, and no record of a
/// summary that they add.
pub fn a_done_run_refuses_nothing()
    ensures { (run : RunInput) → (chain_outcome run).status ≡ Done → RefusesNothing run }
{}

/// The average annual losses and the curves of a set in a run that ends with all its tables are what a stream gives that has the
/// records of that set, event by event, with the run's samples: other sets and perspectives change nothing.
pub fn a_stream_of_a_set_gives_its_file()
    ensures { (run : RunInput) (set : SummarySet) (kind : PeriodTable) (head : Head) (entries : List (Placed SummaryRecord)) → (chain_outcome run).status ≡ Done → head.set ≡ set.set → head.samples ≡ run.terms.samples → map (λ placed. placed.entry) entries ≡ flat_map (set_records run set) (event_ids run.rows) → contents_outcome kind run.rows (record { head = Some head; entries = entries; fault = None }) ≡ gives Done (text_whole run (event_ids run.rows) (OfSet set (file_table kind))) }
{}
