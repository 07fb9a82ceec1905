//! What calculations over streams write: theorems, as functions with an empty body.
//! The rules: docs/STREAMS.md, "Tools over streams".
ghost use Rattle.std.specs.Prelude.{◌≡◌, ℕ, nat_eq, List, [], ◌++◌, Option, Some};
ghost use Rattle.std.specs.List.{AllByRecursion, IsDistinct, flat_map};
ghost use Rattle.kt_stream.specs.declared.entry.Placed.{Placed};
ghost use Rattle.kt_stream.specs.declared.stop.StreamStop.{StreamStop};
ghost use Rattle.kt_ends.specs.declared.status.Refusal.{Refusal};
ghost use Rattle.kt_loop.specs.declared.run_key.RunKey.{RunKey};
ghost use Rattle.kt_loop.specs.ByRun.{RunCalculation, by_run, outcome_by_run};
ghost use Rattle.kt_loop.specs.Contents.{Contents};
ghost use Rattle.kt_loop.specs.Outcome.{gives, stream_status, outcome};
ghost use Rattle.kt_loop.specs.Runs.{AreRuns, ShareNoEvent, given_by_runs, runs_of};
ghost use Rattle.kt_loop.specs.ByRecord.{by_record, table_of};
ghost use Rattle.kt_loop.specs.EventRuns.{IsTaken, event_text, whole_outcome};
ghost use Rattle.kt_stream.specs.Grammar.{placed_from};
ghost use Rattle.kt_stream.specs.Stream.{Form};
ghost use Rattle.kt_ends.specs.declared.status.Status.TheVariants.{Done};

/// A calculation by record refuses nothing: its outcome is the heading and then the rows of each record, with the
/// stream's own fault.
pub fn records_give_their_rows<H, E, S>()
    ensures { (heading : S → H → List ℕ) (rows : S → H → E → List ℕ) (state : S) (contents : Contents H E) → outcome (by_record heading rows) state contents ≡ gives (stream_status contents.fault) (table_of heading rows state contents.head contents.entries) }
{}

/// A calculation run by run writes what stands at the header and then, run after run, what each closed run gives.
pub fn runs_give_their_text<H, E, P>()
    ensures { (key : E → RunKey) (runs : RunCalculation H E P Refusal) (kept : P) (head : H) (entries : List (Placed E)) (fault : Option StreamStop) → outcome (by_run key runs) (record { kept = kept; run = [] }) (record { head = Some head; entries = entries; fault = fault }) ≡ outcome_by_run key runs head (runs.opens head kept).text (runs.opens head kept).next entries fault }
{}

/// What lists of records that share no event give run by run is what the one gives and then what the other gives.
pub fn joined_records_give_one_after_the_other<E>()
    ensures { (key : E → RunKey) (closes : List E → List ℕ) (first : List (Placed E)) (second : List (Placed E)) → ShareNoEvent key first second → given_by_runs key closes (first ++ second) ≡ given_by_runs key closes first ++ given_by_runs key closes second }
{}

/// Over the records of events of which no two are the same, and of which each has one run or none, a calculation run by run
/// that refuses no record of them writes what stands at its header, and then, event after event, what the records of the event
/// give: nothing where there are none. So a list of events cut into parts gives, part after part, what the whole list gives.
pub fn events_give_one_after_the_other<E>()
    ensures { (key : E → RunKey) (refuses : List (Placed E) → Placed E → Option Refusal) (closes : List E → List ℕ) (form : Form E) (opening : List ℕ) (of : ℕ → List E) (events : List ℕ) (at : ℕ) → IsDistinct nat_eq events → AllByRecursion (IsTaken key refuses of) events → whole_outcome key refuses closes opening (placed_from form at (flat_map of events)) ≡ gives Done (opening ++ flat_map (λ event. event_text closes (of event)) events) }
{}

/// The runs of a list of records, one after the other, are these records; each has a record, in each run each record goes
/// on the one before it, and the first of a run does not go on the run before.
pub fn runs_are_the_records<E>()
    ensures { (key : E → RunKey) (entries : List (Placed E)) → AreRuns key (runs_of key entries) entries }
{}
