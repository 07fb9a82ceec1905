//! Stages that calculate run by run.
//! The rules: docs/STREAMS.md, "Runs".
ghost use Rattle.std.specs.Prelude.{◌≡◌, ◌+◌, ℕ, List, [], ◌∷◌, ◌++◌, Bool, Option, None, Some, OnOk};
ghost use Rattle.std.specs.List.{AllByRecursion};
ghost use Rattle.kt_out.specs.InputFiles.{InputsState};
ghost use Rattle.kt_out.specs.NamedFiles.{FileMap};
ghost use Rattle.kt_out.specs.OutputFiles.{OutputsState};
ghost use Rattle.kt_stream.specs.Header.{IsHead};
ghost use Rattle.kt_stream.specs.Reader.{IsPlaced, Represents};
ghost use Rattle.kt_stream.specs.declared.entry.Placed.{Placed};
ghost use Rattle.kt_stream.specs.declared.kind.Head.{Head};
ghost use Rattle.kt_stream.specs.declared.kind.Shape.{Shape};
ghost use Rattle.kt_ends.specs.Outcome.{Outcome};
ghost use Rattle.kt_ends.specs.World.{world};
ghost use Rattle.kt_ends.specs.Stops.{end_status};
ghost use Rattle.kt_ends.specs.declared.status.Refusal.{Refusal};
ghost use Rattle.kt_loop.specs.ByRun.{RunCalculation, OpenRun, by_run, closing, judged};
ghost use Rattle.kt_loop.specs.Counts.{Consults};
ghost use Rattle.kt_loop.specs.RecordStreams.{contents_of};
ghost use Rattle.kt_loop.specs.RunSteps.{JudgesBy, ClosesBy, unwritten};
ghost use Rattle.kt_loop.specs.Running.{EndsRun};
ghost use Rattle.kt_loop.specs.Runs.{IsRun, bare, joins};
ghost use Rattle.kt_loop.specs.Steps.{StepsBy};

use crate::run::run_stage;
use crate::run_key::{RunRecord, goes_on_run};
use crate::run_list::RunList;
use crate::stage::Stage;
use kt_ends::ToolStop;
use kt_money::Bytes;
use kt_out::{Sink, Source};
use kt_stream::{Entry, Head, Placed, RecordReader, Reusable};
use std::alloc::Global;

/// A stage that gives, for a record behind those of its run, a refusal, and for the records of a closed run, the
/// bytes. `W` is what it asks beside the stream: the input files, or `()`.
pub trait RunStage<E: Entry + RunRecord, W> {
    /// What the stage was made with.
    ghost Kept: { Type 0 };

    /// What it calculates.
    ghost runs: { RunCalculation Head E Kept Refusal };

    /// It was made with this. Where files are asked that are not known it may stand for nothing.
    ghost is_at: { Kept → Self → W → Type 0 };

    /// It is ready for a header, or behind it for the record that follows these of the open run, with what it asks beside.
    ghost is_ready: { Option Head → List (Placed E) → Self → W → Type 0 };

    /// The shape of the streams that it stands on. No step changes it.
    ghost shape: { Self → Shape };

    /// The input files beside a call: those that it asks, or others, which it leaves as they are.
    ghost inputs: { InputsState → W → InputsState };

    /// Appends what is written at the header.
    fn open(&mut self, beside: &mut W, head: Head, out: &mut Bytes) -> Result<(), ToolStop>
        requires header { IsHead (shape self.old).kind head }
        requires ready { is_ready None [] self.old beside.old }

        ensures step { (kept : Kept) → is_at kept self.old beside.old → StepsBy (runs.opens head kept) (λ next. is_at next self.new beside.new) out.old out.new result }
        ensures ready { OnOk result (is_ready (Some head) [] self.new beside.new) }
        ensures shape { shape self.new ≡ shape self.old }
        ensures counted { (others : InputsState) → Consults (inputs others beside.old) (inputs others beside.new) result };

    /// Judges a record that stands behind the records of its run.
    fn judge(
        &mut self,
        beside: &mut W,
        head: Head,
        run: &[Placed<E>],
        placed: &Placed<E>,
    ) -> Result<(), ToolStop>
        requires header { IsHead (shape self.old).kind head }
        requires good { AllByRecursion (IsPlaced E E.form E.IsGood (shape self.old) head) run.now }
        requires next { IsPlaced E E.form E.IsGood (shape self.old) head placed.now }
        requires rising { IsRun E.key (run.now ++ placed.now ∷ []) }
        requires ready { is_ready (Some head) run.now self.old beside.old }

        ensures judged { (kept : Kept) → is_at kept self.old beside.old → JudgesBy (runs.refuses head kept run.now placed.now) (is_at kept self.new beside.new) result }
        ensures ready { OnOk result (is_ready (Some head) (run.now ++ placed.now ∷ []) self.new beside.new) }
        ensures shape { shape self.new ≡ shape self.old }
        ensures counted { (others : InputsState) → Consults (inputs others beside.old) (inputs others beside.new) result };

    /// Appends what the records of a closed run give.
    fn close(
        &mut self,
        beside: &mut W,
        head: Head,
        run: &[Placed<E>],
        out: &mut Bytes,
    ) -> Result<(), ToolStop>
        requires header { IsHead (shape self.old).kind head }
        requires good { AllByRecursion (IsPlaced E E.form E.IsGood (shape self.old) head) run.now }
        requires rising { IsRun E.key run.now }
        requires ready { is_ready (Some head) run.now self.old beside.old }

        ensures closed { (kept : Kept) → is_at kept self.old beside.old → ClosesBy (runs.closes head kept (bare run.now)) (is_at kept self.new beside.new) out.old out.new result }
        ensures ready { OnOk result (is_ready (Some head) [] self.new beside.new) }
        ensures shape { shape self.new ≡ shape self.old }
        ensures counted { (others : InputsState) → Consults (inputs others beside.old) (inputs others beside.new) result };
}

/// A stage run by run, with the records of the run that is open.
#[derive(Drop)]
struct ByRun<E, C> {
    stage: C,
    run: RunList<E>,
}

/// Whether a record goes on a run.
fn joins_run<E: RunRecord>(run: &[Placed<E>], placed: &Placed<E>) -> bool
    ensures { result ≡ joins E.key run.now placed.now }
{
    if run.is_empty() {
        return false;
    }
    let last = &run[run.len() - 1];
    goes_on_run(last.entry.run_key(), placed.entry.run_key())
}

/// Judges a record, and keeps it behind those of its run.
fn judge_next<E: Entry + RunRecord + Reusable, W, C: RunStage<E, W>>(
    it: &mut ByRun<E, C>,
    beside: &mut W,
    head: Head,
    placed: &Placed<E>,
) -> Result<(), ToolStop>
    requires header { IsHead (C.shape it.old.stage).kind head }
    requires good { AllByRecursion (IsPlaced E E.form E.IsGood (C.shape it.old.stage) head) it.old.run }
    requires next { IsPlaced E E.form E.IsGood (C.shape it.old.stage) head placed.now }
    requires rising { IsRun E.key (it.old.run ++ placed.now ∷ []) }
    requires ready { C.is_ready (Some head) it.old.run it.old.stage beside.old }

    ensures step { (kept : C.Kept) → C.is_at kept it.old.stage beside.old → StepsBy (unwritten (judged kept it.old.run placed.now (C.runs.refuses head kept it.old.run placed.now))) (λ next. C.is_at next.kept it.new.stage beside.new × (it.new.run ≡ next.run)) [] [] result }
    ensures good { OnOk result (AllByRecursion (IsPlaced E E.form E.IsGood (C.shape it.new.stage) head) it.new.run) }
    ensures rising { OnOk result (IsRun E.key it.new.run) }
    ensures ready { OnOk result (C.is_ready (Some head) it.new.run it.new.stage beside.new) }
    ensures shape { C.shape it.new.stage ≡ C.shape it.old.stage }
    ensures counted { (others : InputsState) → Consults (C.inputs others beside.old) (C.inputs others beside.new) result }
{
    if let Err(why) = it.stage.judge(beside, head, it.run.as_slice(), placed) {
        return Err(why);
    }
    if it.run.push(placed).is_err() {
        return Err(ToolStop::NoMemory);
    }
    Ok(())
}

/// Closes the open run, if there is one.
fn close_open<E: Entry + RunRecord + Reusable, W, C: RunStage<E, W>>(
    it: &mut ByRun<E, C>,
    beside: &mut W,
    head: Head,
    out: &mut Bytes,
) -> Result<(), ToolStop>
    requires header { IsHead (C.shape it.old.stage).kind head }
    requires good { AllByRecursion (IsPlaced E E.form E.IsGood (C.shape it.old.stage) head) it.old.run }
    requires rising { IsRun E.key it.old.run }
    requires ready { C.is_ready (Some head) it.old.run it.old.stage beside.old }

    ensures closed { (kept : C.Kept) → C.is_at kept it.old.stage beside.old → ClosesBy (closing C.runs head kept it.old.run) (C.is_at kept it.new.stage beside.new) out.old out.new result }
    ensures emptied { OnOk result (it.new.run ≡ []) }
    ensures ready { OnOk result (C.is_ready (Some head) [] it.new.stage beside.new) }
    ensures shape { C.shape it.new.stage ≡ C.shape it.old.stage }
    ensures counted { (others : InputsState) → Consults (C.inputs others beside.old) (C.inputs others beside.new) result }
{
    if it.run.as_slice().is_empty() {
        return Ok(());
    }
    if let Err(why) = it.stage.close(beside, head, it.run.as_slice(), out) {
        return Err(why);
    }
    it.run.clear();
    Ok(())
}

impl<E: Entry + RunRecord + Reusable, W, C: RunStage<E, W>> Stage<E, W> for ByRun<E, C> {
    ghost use Rattle.std.specs.Prelude.{◌≡◌, []};
    ghost use Rattle.std.specs.List.{AllByRecursion};
    ghost use Rattle.kt_stream.specs.Reader.{IsPlaced};
    ghost use Rattle.kt_loop.specs.ByRun.{OpenRun, by_run};
    ghost use Rattle.kt_loop.specs.RunSteps.{IsReady};
    ghost use Rattle.kt_loop.specs.Runs.{IsRun};

    ghost State = { OpenRun C.Kept E };

    ghost calculation = { by_run E.key C.runs };

    ghost is_at = { λ state it beside. C.is_at state.kept it.stage beside × (it.run ≡ state.run) };

    ghost is_ready = { λ header it beside. C.is_ready header it.run it.stage beside × (IsReady (IsPlaced E E.form E.IsGood (C.shape it.stage)) header it.run × IsRun E.key it.run) };

    ghost shape = { λ it. C.shape it.stage };

    ghost inputs = { C.inputs };

    fn open(&mut self, beside: &mut W, head: Head, out: &mut Bytes) -> Result<(), ToolStop> {
        self.stage.open(beside, head, out)
    }

    fn take(
        &mut self,
        beside: &mut W,
        head: Head,
        placed: &Placed<E>,
        out: &mut Bytes,
    ) -> Result<(), ToolStop> {
        if joins_run(self.run.as_slice(), placed) {
            return judge_next(self, beside, head, placed);
        }
        if let Err(why) = close_open(self, beside, head, out) {
            return Err(why);
        }
        judge_next(self, beside, head, placed)
    }

    fn end(&mut self, beside: &mut W, head: Head, out: &mut Bytes) -> Result<(), ToolStop> {
        close_open(self, beside, head, out)
    }
}

/// Reads a stream to its end and carries out a calculation run by run over it: writes what stands at the header, and
/// then what each closed run gives. A record that opens a run closes the one before it, also where it is then refused;
/// the end of the stream closes the last run only where the stream ends without a fault.
pub fn run_by_run<E: Entry + RunRecord + Reusable, W, C: RunStage<E, W> + Drop, S: Source, K: Sink>(
    alloc: Global,
    reader: &mut RecordReader<E>,
    stage: C,
    beside: &mut W,
    source: &mut S,
    sink: &mut K,
) -> Result<(), ToolStop>
    requires fresh { Represents E E.form [] [] reader.old }
    requires told { reader.old.shape ≡ C.shape stage }
    requires ready { C.is_ready None [] stage beside.old }

    ensures ended { (asks : Bool) (made : FileMap → List ℕ → Outcome) (others : InputsState) (outputs : OutputsState) → EndsRun (by_run E.key C.runs) (contents_of E.form (C.shape stage)) (λ state. C.is_at state.kept stage beside.old × ([] ≡ state.run)) asks made (world (C.inputs others beside.old) outputs (S.state source.old) (K.state sink.old)) (world (C.inputs others beside.new) outputs (S.state source.new) (K.state sink.new)) (end_status result) }
{
    let mut by_run = ByRun {
        stage,
        run: RunList::new(alloc),
    };
    run_stage(alloc, reader, &mut by_run, beside, source, sink)
}
