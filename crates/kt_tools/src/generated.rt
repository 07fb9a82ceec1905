//! A run of all stages over a made-up set, in memory.
//! The rules: docs/GENERATOR.md, "What is shown of a run"; docs/COMMANDS.md, "gen".
ghost use Rattle.std.specs.Prelude.{◌≡◌, ◌≤◌, ℕ, [], IfOk, Ok, Some, MatchResult};
ghost use Rattle.kt_ends.specs.Ending.{IsRefusal, ToolEnds};
ghost use Rattle.kt_ends.specs.Stops.{end_status};
ghost use Rattle.kt_ends.specs.World.{world};
ghost use Rattle.kt_event.specs.Needs.{chain_need as need_of_terms};
ghost use Rattle.kt_load.specs.EventRows.{HasFootprint, footprint_name};
ghost use Rattle.kt_load.specs.Loaded.{loaded};
ghost use Rattle.kt_out.specs.InputFiles.{InputsState};
ghost use Rattle.kt_out.specs.NamedFiles.{bytes_of};
ghost use Rattle.kt_out.specs.OutputFiles.{OutputsState};
ghost use Rattle.kt_out.specs.Reading.{SourceState};
ghost use Rattle.kt_tools.specs.GeneratedRun.{MadeInMemory, StopsInMemory, generated_map, generated_outcome, generated_run, generated_terms as terms_of_generated};
ghost use Rattle.kt_tools.specs.Uses.{command_uses};
ghost use Rattle.kt_words.specs.Command.{IsGen};
ghost use Rattle.kt_words.specs.declared.command.Command.TheVariants as Command;

use kt_chain::{ChainOptions, run_chain};
use kt_counted::CountedOutputs;
use kt_ends::{ToolStop, write_stop};
use kt_event::{Terms, chain_need};
use kt_files::laws::names_are_distinct;
use kt_files::{OutputFile, output_files};
use kt_front::load_stop;
use kt_gen::{generate, generate_footprint, made_files_are_shown, push_file_lines};
use kt_load::load;
use kt_money::Bytes;
use kt_out::{Gate, Sink, SureInputs, write_all};
use kt_rec::Perspective;
use kt_tables::Portfolio;
use std::alloc::Global;
use std::thread::Threads;

/// How many events a part of a round has.
const BATCH: u32 = 4;

/// What is computed of a made-up set.
fn generated_terms() -> Terms
    ensures { result ≡ terms_of_generated }
{
    Terms {
        samples: 100,
        cut: true,
        rule: 2,
        last: Perspective::Ri,
        stages: 1,
    }
}

/// Runs all stages over the tables of a made-up set and its footprint, into output files that are counted, of which there must be
/// none. It answers these files in the order of their making. An error is the refusal of the run, or want of memory.
fn run_loaded<R: Threads + Sync, G: Gate + Sync>(
    rt: &R,
    gate: &G,
    alloc: Global,
    workers: u32,
    portfolio: &Portfolio,
    inputs: &mut SureInputs,
    outputs: &mut CountedOutputs,
) -> Result<Vec<OutputFile>, ToolStop>
    requires some { 1 ≤ workers }
    requires few { workers ≤ 16 }
    requires need { portfolio.now.need ≡ need_of_terms terms_of_generated }
    requires file { HasFootprint (Some (bytes_of inputs.old.files)) portfolio.now.rows.footprint_size }
    requires none { outputs.old ≡ [] }
    ensures { (seed items events : ℕ) → loaded (generated_map seed items events) (need_of_terms terms_of_generated) ≡ Ok portfolio.now.rows → bytes_of inputs.old.files footprint_name ≡ generated_map seed items events footprint_name → MatchResult result (λ files. MadeInMemory (generated_run seed items events) outputs.new files.items) (StopsInMemory (generated_run seed items events)) }
{
    let terms = generated_terms();
    let files = output_files(alloc, portfolio, terms.last)?;
    let options = ChainOptions {
        terms,
        workers,
        batch: BATCH,
    };
    names_are_distinct();
    made_files_are_shown();
    match run_chain(rt, gate, alloc, &options, portfolio, inputs, outputs) {
        Ok(()) => Ok(files),
        Err(stop) => Err(stop),
    }
}

/// Makes a set and loads its tables. The files are let go: a run over tables that are loaded reads the footprint alone. An error is
/// a refusal of the tables, or want of memory.
fn load_set(alloc: Global, seed: u32, items: u32, events: u32) -> Result<Portfolio, ToolStop>
    requires some_items { 1 ≤ items }
    requires few_items { items ≤ 9000 }
    requires some_events { 1 ≤ events }
    requires few_events { events ≤ 10000 }
    ensures loaded { MatchResult result (λ portfolio. loaded (generated_map seed items events) (need_of_terms terms_of_generated) ≡ Ok portfolio.rows) (StopsInMemory (generated_run seed items events)) }
    ensures need { IfOk result (λ portfolio. portfolio.need ≡ need_of_terms terms_of_generated) }
{
    let mut inputs = generate(alloc, seed, items, events)?;
    match load(alloc, &mut inputs, chain_need(&generated_terms())) {
        Ok(portfolio) => Ok(portfolio),
        Err(stop) => Err(load_stop(stop)),
    }
}

/// Makes a set and runs all stages over it, into output files that are counted, of which there must be none. It answers these
/// files in the order of their making. An error is the refusal of the run, or want of memory.
fn run_generated<R: Threads + Sync, G: Gate + Sync>(
    rt: &R,
    gate: &G,
    alloc: Global,
    seed: u32,
    items: u32,
    events: u32,
    workers: u32,
    outputs: &mut CountedOutputs,
) -> Result<Vec<OutputFile>, ToolStop>
    requires set { IsGen items events workers }
    requires none { outputs.old ≡ [] }
    ensures { MatchResult result (λ files. MadeInMemory (generated_run seed items events) outputs.new files.items) (StopsInMemory (generated_run seed items events)) }
{
    let mut inputs = generate_footprint(alloc, seed, items, events)?;
    match load_set(alloc, seed, items, events) {
        Ok(portfolio) => run_loaded(rt, gate, alloc, workers, &portfolio, &mut inputs, outputs),
        Err(stop) => Err(stop),
    }
}

/// Makes a set of this seed with so many items and events, runs all stages over it by so many workers, and writes a line for each
/// output file of the run: its name, how many lines it has, and how many bytes. Where the run is refused nothing is written.
pub(crate) fn write_generated<R: Threads + Sync, G: Gate + Sync, K: Sink>(
    rt: &R,
    gate: &G,
    alloc: Global,
    seed: u32,
    items: u32,
    events: u32,
    workers: u32,
    sink: &mut K,
) -> Result<(), ToolStop>
    requires { IsGen items events workers }
    // The source and the files are none of its objects: whatever they hold and have counted stays so.
    ensures ends { (inputs : InputsState) (outputs : OutputsState) (source : SourceState) → ToolEnds (command_uses (Command.Gen seed items events workers)) (λ _ _. generated_outcome seed items events) (world inputs outputs source (K.state sink.old)) (world inputs outputs source (K.state sink.new)) (end_status result) }

    // Whatever the answer is: where the run over the set is refused, nothing was written.
    ensures due { IsRefusal (generated_outcome seed items events).status → K.state sink.new ≡ K.state sink.old }
{
    let mut outputs = CountedOutputs::new(alloc);
    let files = match run_generated(rt, gate, alloc, seed, items, events, workers, &mut outputs) {
        Ok(files) => files,
        Err(stop) => return Err(stop),
    };
    let mut lines = Bytes::new(alloc);
    push_file_lines(alloc, &mut lines, &files, &outputs)?;
    match write_all(sink, lines.as_slice()) {
        Ok(()) => Ok(()),
        Err(fault) => Err(write_stop(fault)),
    }
}
