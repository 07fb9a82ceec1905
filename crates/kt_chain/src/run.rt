//! A run of all stages over a portfolio.
//! The rules: docs/COMMANDS.md, "chain"; docs/OUTPUTS.md, "Files of a run"; docs/REFUSALS.md, "Order".
ghost use Rattle.std.specs.Prelude.{◌≡◌, ◌++◌, ◌≤◌, ℕ, List, [], IfErr, IfSome, IsSomeAnd};
ghost use Rattle.kt_cell.specs.Losses.{Added};
ghost use Rattle.kt_ends.specs.Ending.{ToolEnds};
ghost use Rattle.kt_ends.specs.Stops.{end_status};
ghost use Rattle.kt_ends.specs.World.{world};
ghost use Rattle.kt_event.specs.Needs.{chain_need};
ghost use Rattle.kt_block.specs.Terms.{AreTerms};
ghost use Rattle.kt_files.specs.Endings.{AreEndings};
ghost use Rattle.kt_files.specs.OutputFiles.{output_files, output_name};
ghost use Rattle.kt_files.specs.Parts.{end_text, head_text};
ghost use Rattle.kt_files.specs.declared.file.OutputFile.{OutputFile};
ghost use Rattle.kt_load.specs.EventRows.{HasFootprint};
ghost use Rattle.kt_out.specs.OutputFiles.{CountsOutput};
ghost use Rattle.kt_out.specs.Reading.{SourceState};
ghost use Rattle.kt_out.specs.Writing.{SinkState};
ghost use Rattle.kt_outputs.specs.Files.{Makes, files_with};
ghost use Rattle.kt_rec.specs.Rows.{Rows};
ghost use Rattle.kt_rec.specs.declared.perspective.Perspective.{Perspective};
ghost use Rattle.kt_chain.specs.Events.{RunInput, run_input};
ghost use Rattle.kt_chain.specs.Outcome.{chain_outcome};
ghost use Rattle.kt_chain.specs.Rounds.{IsRunStop};
ghost use Rattle.kt_chain.specs.Runs.{Counts, IsRunOf, RunMakes, RunSays, chain_uses};

use crate::options::ChainOptions;
use crate::rounds::{Run, all_rounds};
use crate::text_fold::TextFold;
use kt_ends::{ToolStop, write_stop};
use kt_event::Plan;
use kt_files::laws::names_are_distinct;
use kt_files::{Endings, Headings, OutputFile, output_files, shared_curves};
use kt_fold::RunFold;
use kt_loop::keep_memory;
use kt_out::{Fault, Gate, Inputs, Outputs};
use kt_outputs::{append_texts, append_texts_beside, create_files};
use kt_tables::Portfolio;
use std::alloc::Global;
use std::mem::forget;
use std::thread::Threads;

/// Makes the files of a run, and writes what stands at their heads.
fn begin<R, G, O: Outputs>(run: &Run<'_, R, G>, outputs: &mut O) -> Result<(), Fault>
    ensures made { Makes [] (files_with output_name head_text run.now.files) (O.state outputs.old) (O.state outputs.new) result }
    ensures counts { CountsOutput (O.state outputs.old).faults (O.state outputs.new).faults result }
{
    run.has_files();
    names_are_distinct();
    if let Err(fault) = create_files(run.alloc, outputs, run.files) {
        return Err(fault);
    }
    append_texts(run.alloc, outputs, run.files, &Headings)
}

/// Writes the tables over all periods at the end of the files. Those of as many files as the run has workers are made side by side, and before
/// them, side by side as well, what the curves of each set share.
fn finish<R: Threads + Sync, G, O: Outputs>(
    run: &Run<'_, R, G>,
    fold: &RunFold<'_>,
    outputs: &mut O,
) -> Result<(), Fault>
    ensures made { (history : List Added) (text : OutputFile → List ℕ) → AreEndings history fold.now.rows fold.now.cells → Makes (files_with output_name text run.now.files) (files_with output_name (λ file. text file ++ end_text fold.now.cells.samples fold.now.rows history file) run.now.files) (O.state outputs.old) (O.state outputs.new) result }
    ensures counts { CountsOutput (O.state outputs.old).faults (O.state outputs.new).faults result }
{
    run.has_files();
    names_are_distinct();
    let workers = run.workers as usize;
    let portfolio = fold.portfolio();
    let cells = fold.cells();
    let last = run.plan.terms().last;
    let Ok(curves) = shared_curves(run.rt, run.alloc, portfolio, cells, last, workers) else {
        return Err(Fault::OutOfMemory);
    };
    let endings = Endings {
        portfolio,
        cells,
        curves: curves.as_slice(),
    };
    append_texts_beside(run.rt, run.alloc, outputs, run.files, &endings, workers)
}

/// Makes the files of a run, carries its events through all stages round by round, and writes the tables over all periods.
fn write_run<R: Threads + Sync, G: Gate + Sync, I: Inputs, O: Outputs>(
    run: &Run<'_, R, G>,
    inputs: &mut I,
    outputs: &mut O,
) -> Result<(), ToolStop>
    requires file { HasFootprint (I.state inputs.old).held run.now.portfolio.rows.footprint_size }
    ensures says { (input : RunInput) → IsRunOf (I.state inputs.old).held run.now.terms run.now.portfolio.rows input → RunSays input result }
    ensures files { (input : RunInput) → IsRunOf (I.state inputs.old).held run.now.terms run.now.portfolio.rows input → RunMakes input (O.state outputs.old) (O.state outputs.new) result }
    ensures counts { Counts (I.state inputs.old) (I.state inputs.new) (O.state outputs.old).faults (O.state outputs.new).faults result }
    ensures stop { IfErr result IsRunStop }
{
    run.has_files();
    if let Err(fault) = begin(run, outputs) {
        return Err(write_stop(fault));
    }
    let inner = RunFold::new(run.alloc, run.portfolio, run.plan.terms().samples);
    let mut fold = TextFold {
        inner,
        made: Vec::new(run.alloc),
    };
    if let Err(stop) = all_rounds(run, &mut fold, inputs, outputs) {
        return Err(stop);
    }
    fold.keeps_periods();
    match finish(run, &fold.inner, outputs) {
        Ok(()) => {
            // The process ends now, and the system takes its memory back at once: cell by cell that took 2 % of a run of four workers.
            forget(fold);
            Ok(())
        }
        Err(fault) => Err(write_stop(fault)),
    }
}

/// A run of all stages over a portfolio that was loaded for its terms: it makes the output files, carries each event from its
/// footprint rows to its summaries, and writes the tables. An error is why the first event that is refused is so, by its
/// footprint rows or by a record that passes a limit: then the files hold the rows of the events before it, and those over all
/// periods nothing; or a fault of the input files or of the output files, or want of memory: then some front of the files is
/// made, each with a front of its text. The memory of the cells of a run that comes to its end, and that of its last round, is not given
/// back: the process ends then. Neither the number of workers nor the size of a part changes what is written. The making of part k of a
/// round, counted from 0, begins with `gate.pass(k)`, by which a test sees what is made side by side.
pub fn run_chain<R: Threads + Sync, G: Gate + Sync, I: Inputs, O: Outputs>(
    rt: &R,
    gate: &G,
    alloc: Global,
    options: &ChainOptions,
    portfolio: &Portfolio,
    inputs: &mut I,
    outputs: &mut O,
) -> Result<(), ToolStop>
    requires terms { AreTerms options.now.terms }
    requires some { 1 ≤ options.now.batch }
    requires most { options.now.batch ≤ 4 }
    requires some_workers { 1 ≤ options.now.workers }
    requires few_workers { options.now.workers ≤ 16 }
    requires need { portfolio.now.need ≡ chain_need options.now.terms }
    requires file { HasFootprint (I.state inputs.old).held portfolio.now.rows.footprint_size }
    // The source and the sink are none of its objects.
    ensures ends { (source : SourceState) (sink : SinkState) → ToolEnds chain_uses (λ files _. chain_outcome (run_input options.now.terms portfolio.now.rows files)) (world (I.state inputs.old) (O.state outputs.old) source sink) (world (I.state inputs.new) (O.state outputs.new) source sink) (end_status result) }
    ensures stop { IfErr result IsRunStop }
{
    keep_memory(alloc);
    let plan = Plan::new(alloc, portfolio, options.terms)?;
    let files = output_files(alloc, portfolio, options.terms.last)?;
    let run = Run {
        rt,
        gate,
        alloc,
        portfolio,
        plan: &plan,
        files: &files,
        workers: options.workers,
        batch: options.batch,
    };
    write_run(&run, inputs, outputs)
}
