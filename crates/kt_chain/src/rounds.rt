//! The events of a run, round by round.
//! The rules: docs/REFUSALS.md, "Order"; docs/OUTPUTS.md, "Files of a run".
ghost use Rattle.std.specs.Prelude.{◌≡◌, ◌++◌, ◌≤◌, ◌*◌, ℕ, List, [], All, IfErr, IfOk, IfSome, length};
ghost use Rattle.std.specs.List.{flat_map};
ghost use Rattle.kt_event.specs.Needs.{chain_need};
ghost use Rattle.kt_block.specs.Terms.{AreTerms};
ghost use Rattle.kt_files.specs.OutputFiles.{output_files, output_name};
ghost use Rattle.kt_files.specs.Parts.{block_text};
ghost use Rattle.kt_files.specs.declared.file.OutputFile.{OutputFile};
ghost use Rattle.kt_load.specs.EventRows.{HasFootprint, ids_of};
ghost use Rattle.kt_out.specs.OutputFiles.{CountsOutput};
ghost use Rattle.kt_outputs.specs.Files.{Makes, files_with};
ghost use Rattle.kt_stream.specs.Pairs.{IsId};
ghost use Rattle.kt_tables.specs.Lookups.{event_ids};
ghost use Rattle.kt_chain.specs.Events.{RunInput};
ghost use Rattle.kt_chain.specs.Rounds.{FitsRun, IsEventRefusal, IsRunStop, IsWhy};
ghost use Rattle.kt_fold.specs.Folds.{blocks_of, fold_refusal};
ghost use Rattle.kt_chain.specs.TextFolds.{KeepsRows};
ghost use Rattle.kt_chain.specs.Runs.{AreGivenRows, Counts, FoldsTo, IsFolded, IsRunOf, RoundGoes, RoundMakes};

use crate::rows::fill_rows;
use crate::text_fold::TextFold;
use crate::texts::RoundTexts;
use crate::work::RoundWork;
use kt_claims::Claims;
use kt_ends::{Refusal, ToolStop, write_stop};
use kt_event::Plan;
use kt_files::OutputFile;
use kt_files::laws::names_are_distinct;
use kt_fold::FoldStop;
use kt_load::RoundRows;
use kt_out::{Fault, Gate, Inputs, Outputs};
use kt_outputs::append_texts;
use kt_part::{RoundStop, run_round};
use kt_tables::Portfolio;
use std::alloc::{AllocError, Global};
use std::marker::Model;
use std::thread::Threads;

/// The parts of a round.
const PARTS: usize = 16;

/// What all rounds of a run share: what lends threads and the gate of the parts among it. Contracts see the portfolio, the terms, the
/// files, how many workers there are and the size of a part.
#[derive(Drop)]
pub(crate) struct Run<'a, R, G> {
    pub(crate) rt: &'a R,
    pub(crate) gate: &'a G,
    pub(crate) alloc: Global,
    pub(crate) portfolio: &'a Portfolio,
    pub(crate) plan: &'a Plan,
    pub(crate) files: &'a [OutputFile],
    pub(crate) workers: u32,
    pub(crate) batch: u32,
}

impl<'a, R, G> Model for Run<'a, R, G> {
    ghost use Rattle.kt_chain.specs.Runs.{IsRun, RunShares};
    ghost use Rattle.kt_event.specs.Plan.{terms_of};

    ghost Value = { RunShares };

    ghost view = { λ r. record { portfolio = r.portfolio.now; terms = terms_of r.plan.now; files = r.files.now; workers = r.workers; batch = r.batch } };

    ghost invariant = { λ r. IsRun r.portfolio.now r.plan.now r.files.now r.workers r.batch };
}

impl<'a, R, G> Run<'a, R, G> {
    /// Says that its files are those of its portfolio and terms, that its plan is that of its portfolio, the size of a part, and that
    /// there is a worker.
    pub(crate) fn has_files(&self)
        ensures files { self.now.files ≡ output_files self.now.portfolio.rows self.now.terms.last }
        ensures need { self.now.portfolio.need ≡ chain_need self.now.terms }
        ensures terms { AreTerms self.now.terms }
        ensures batch { (1 ≤ self.now.batch) × (self.now.batch ≤ 4) }
        ensures workers { 1 ≤ self.now.workers }
    {
        let _ = &self.batch;
    }
}

/// Why a stop of the fold refuses the run. An error is want of memory, and comes where that stopped the fold and nowhere else.
fn why_stopped(stop: FoldStop) -> Result<Option<Refusal>, AllocError>
    ensures { IsWhy (fold_refusal stop) result }
{
    match stop.refusal() {
        Some(refusal) => Ok(Some(refusal)),
        None => Err(AllocError),
    }
}

/// Folds the parts of a round, and answers why one of its events is refused, if one is. An error is want of memory.
fn fold_round<R: Threads + Sync, G: Gate + Sync>(
    run: &Run<'_, R, G>,
    fold: &mut TextFold<'_>,
    given: &RoundRows,
) -> Result<Option<Refusal>, AllocError>
    requires events { All (λ one. IsId one.event) given.now }
    requires few { length given.now ≤ 16 * run.now.batch }
    requires fits { FitsRun run.now.terms.samples fold.old.inner }
    ensures folds { IfOk result (λ refusal. (input : RunInput) (done : List ℕ) → input.terms ≡ run.now.terms → input.rows ≡ run.now.portfolio.rows → AreGivenRows input given.now → IsFolded input done fold.old.inner → FoldsTo input done (ids_of given.now) refusal fold.new.inner × KeepsRows fold.new) }
    ensures why { IfOk result (λ refusal. IfSome refusal IsEventRefusal) }
    ensures fits { FitsRun run.now.terms.samples fold.new.inner }
{
    run.has_files();
    let batch = run.batch as usize;
    let count = ((given.count() as usize + batch - 1) / batch) as u32;
    let work = RoundWork {
        gate: run.gate,
        alloc: run.alloc,
        portfolio: run.portfolio,
        plan: run.plan,
        given,
        batch: run.batch,
        // One worker alone gains nothing by either: rows and cells would only stand between the records in memory.
        files: if 1 < run.workers { run.files } else { &[] },
        ahead: 1 < run.workers && fold.inner.ahead(),
    };
    fold.made.clear();
    let (claims, mut pass) = Claims::new(run.alloc, run.workers)?;
    match run_round(
        run.rt,
        run.alloc,
        &claims,
        &mut pass,
        &work,
        fold,
        count,
        run.workers,
    ) {
        Ok(()) => Ok(None),
        Err(RoundStop::OutOfMemory) => Err(AllocError),
        Err(RoundStop::Fold { stop, .. }) => why_stopped(stop),
    }
}

/// Appends the rows of the parts that are kept to the files, and lets the parts go. The workers have made the rows, but for those of a part
/// of which a front alone is kept. The memory of the parts of the last round is not given back.
fn write_kept<R, G, O: Outputs>(
    run: &Run<'_, R, G>,
    fold: &mut TextFold<'_>,
    is_last: bool,
    outputs: &mut O,
) -> Result<(), Fault>
    requires fits { FitsRun run.now.terms.samples fold.old.inner }
    ensures made { KeepsRows fold.old → (text : OutputFile → List ℕ) → Makes (files_with output_name text run.now.files) (files_with output_name (λ file. text file ++ flat_map (block_text fold.old.inner.cells.samples fold.old.inner.rows file) (blocks_of fold.old.inner.kept)) run.now.files) (O.state outputs.old) (O.state outputs.new) result }
    ensures fold { IfOk result (λ _. fold.new.inner ≡ record fold.old.inner { kept = [] }) }
    ensures fits { FitsRun run.now.terms.samples fold.new.inner }
    ensures counts { CountsOutput (O.state outputs.old).faults (O.state outputs.new).faults result }
{
    run.has_files();
    names_are_distinct();
    let texts = RoundTexts {
        portfolio: fold.inner.portfolio(),
        samples: fold.inner.samples(),
        parts: fold.inner.kept(),
        made: fold.made.as_slice(),
    };
    let answer = append_texts(run.alloc, outputs, run.files, &texts);
    match answer {
        Ok(()) => {
            fold.let_go(is_last);
            Ok(())
        }
        Err(fault) => Err(fault),
    }
}

/// One round: the footprint rows of its events are read, its parts are made and folded, and the rows of the events before the
/// first that is refused are written.
fn one_round<R: Threads + Sync, G: Gate + Sync, I: Inputs, O: Outputs>(
    run: &Run<'_, R, G>,
    fold: &mut TextFold<'_>,
    given: &mut RoundRows,
    events: &[u32],
    is_last: bool,
    inputs: &mut I,
    outputs: &mut O,
) -> Result<(), ToolStop>
    requires events { All IsId events.now }
    requires few { length events.now ≤ 16 * run.now.batch }
    requires file { HasFootprint (I.state inputs.old).held run.now.portfolio.rows.footprint_size }
    requires fits { FitsRun run.now.terms.samples fold.old.inner }
    ensures events { (input : RunInput) (done : List ℕ) → IsRunOf (I.state inputs.old).held run.now.terms run.now.portfolio.rows input → IsFolded input done fold.old.inner → RoundGoes input done events.now fold.new.inner result }
    ensures files { (input : RunInput) (done : List ℕ) → IsRunOf (I.state inputs.old).held run.now.terms run.now.portfolio.rows input → IsFolded input done fold.old.inner → RoundMakes input done events.now (O.state outputs.old) (O.state outputs.new) result }
    ensures counts { Counts (I.state inputs.old) (I.state inputs.new) (O.state outputs.old).faults (O.state outputs.new).faults result }
    ensures stop { IfErr result IsRunStop }
    ensures fits { FitsRun run.now.terms.samples fold.new.inner }
{
    run.has_files();
    if let Err(stop) = fill_rows(given, inputs, run.portfolio, events) {
        return Err(stop);
    }
    let refusal = match fold_round(run, fold, given) {
        Ok(refusal) => refusal,
        Err(_) => return Err(ToolStop::NoMemory),
    };
    if let Err(fault) = write_kept(run, fold, is_last, outputs) {
        return Err(write_stop(fault));
    }
    match refusal {
        Some(why) => Err(ToolStop::Refused(why)),
        None => Ok(()),
    }
}

/// All rounds, one after the other, up to the first event that is refused.
pub(crate) fn all_rounds<R: Threads + Sync, G: Gate + Sync, I: Inputs, O: Outputs>(
    run: &Run<'_, R, G>,
    fold: &mut TextFold<'_>,
    inputs: &mut I,
    outputs: &mut O,
) -> Result<(), ToolStop>
    requires file { HasFootprint (I.state inputs.old).held run.now.portfolio.rows.footprint_size }
    requires fits { FitsRun run.now.terms.samples fold.old.inner }
    ensures events { (input : RunInput) → IsRunOf (I.state inputs.old).held run.now.terms run.now.portfolio.rows input → IsFolded input [] fold.old.inner → RoundGoes input [] (event_ids run.now.portfolio.rows) fold.new.inner result }
    ensures files { (input : RunInput) → IsRunOf (I.state inputs.old).held run.now.terms run.now.portfolio.rows input → IsFolded input [] fold.old.inner → RoundMakes input [] (event_ids run.now.portfolio.rows) (O.state outputs.old) (O.state outputs.new) result }
    ensures counts { Counts (I.state inputs.old) (I.state inputs.new) (O.state outputs.old).faults (O.state outputs.new).faults result }
    ensures stop { IfErr result IsRunStop }
    ensures fits { FitsRun run.now.terms.samples fold.new.inner }
{
    run.has_files();
    run.portfolio.is_valid();
    let size = PARTS * run.batch as usize;
    let mut given = RoundRows::new(run.alloc);
    let mut rest = run.portfolio.events();
    while !rest.is_empty() {
        let (round, later) = rest.split_at(rest.len().min(size));
        let is_last = later.is_empty();
        if let Err(stop) = one_round(run, fold, &mut given, round, is_last, inputs, outputs) {
            return Err(stop);
        }
        rest = later;
    }
    Ok(())
}
