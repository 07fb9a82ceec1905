//! The one call that runs a command.
//! The rules: docs/COMMANDS.md, docs/REFUSALS.md.
ghost use Rattle.std.specs.Prelude.{◌≡◌, ◌<◌, ℕ, List, Some, length};
ghost use Rattle.kt_ends.specs.Ending.{ToolEnds};
ghost use Rattle.kt_ends.specs.Report.{AnswersWords};
ghost use Rattle.kt_ends.specs.Stops.{end_status};
ghost use Rattle.kt_ends.specs.World.{world};
ghost use Rattle.kt_tools.specs.Due.{AllFirst, InOrder, TablesFirst};
ghost use Rattle.kt_front.specs.Loading.{IsOfFiles};
ghost use Rattle.kt_tools.specs.Needs.{command_need as need_of_command};
ghost use Rattle.kt_tools.specs.Outcome.{command_outcome, outcome, tool_outcome};
ghost use Rattle.kt_tools.specs.RunEnds.{RunEnds};
ghost use Rattle.kt_tools.specs.Uses.{command_uses, words_use};
ghost use Rattle.kt_words.specs.Command.{IsCommand, command_of};
ghost use Rattle.kt_words.specs.FileNames.{file_names};
ghost use Rattle.kt_words.specs.declared.command.Command.TheVariants as Command;

use crate::generated::write_generated;
use crate::need::command_need;
use kt_chain::{ChainOptions, run_chain};
use kt_checks::Need;
use kt_ends::{Status, ToolStop, report, status_of};
use kt_event::Terms;
use kt_front::{
    convert, footprint_to_text, load_stop, write_distributions, write_events, write_ground_up,
};
use kt_kat::kat;
use kt_load::load;
use kt_losses::{write_insured, write_net, write_summaries};
use kt_out::{Gate, Inputs, Outputs, Sink, Source};
use kt_periods::{
    write_average_annual_losses, write_event_losses, write_exceedance_curve, write_period_losses,
};
use kt_tables::Portfolio;
use kt_words::{Command, Words, read_command};
use std::alloc::Global;
use std::thread::Threads;

/// Runs the tool of a command over the portfolio of its tables.
fn run_tool<R: Threads + Sync, G: Gate + Sync, I: Inputs, O: Outputs, S: Source, K: Sink>(
    rt: &R,
    gate: &G,
    alloc: Global,
    command: Command,
    portfolio: &Portfolio,
    inputs: &mut I,
    outputs: &mut O,
    source: &mut S,
    sink: &mut K,
) -> Result<(), ToolStop>
    requires command { IsCommand command }
    requires need { need_of_command command ≡ Some portfolio.now.need }
    requires tables { IsOfFiles (I.state inputs.old) portfolio.now }
    ensures { (words : List (List ℕ)) → ToolEnds (command_uses command) (λ files bytes. tool_outcome words command files portfolio.now bytes) (world (I.state inputs.old) (O.state outputs.old) (S.state source.old) (K.state sink.old)) (world (I.state inputs.new) (O.state outputs.new) (S.state source.new) (K.state sink.new)) (end_status result) }
{
    match command {
        Command::Fmcalc { rule } => write_insured(alloc, rule, portfolio, source, sink),
        Command::FmcalcNet { rule, stage } => {
            write_net(alloc, rule, stage, portfolio, source, sink)
        }
        Command::Summarycalc { items, set, .. } => {
            write_summaries(alloc, items, set, portfolio, source, sink)
        }
        Command::Pltcalc { heading } => {
            write_period_losses(alloc, heading, portfolio, source, sink)
        }
        Command::Aalcalc => write_average_annual_losses(alloc, portfolio, source, sink),
        Command::Leccalc { curve } => {
            write_exceedance_curve(alloc, curve, portfolio, source, sink)
        }
        Command::Getmodel => write_distributions(alloc, portfolio, inputs, source, sink),
        Command::Gulcalc { samples, cut } => {
            write_ground_up(alloc, samples, cut, portfolio, source, sink)
        }
        Command::FootprintText => footprint_to_text(alloc, portfolio, source, sink),
        Command::Eve { part, parts } => write_events(alloc, part, parts, portfolio, sink),
        Command::Chain {
            samples,
            cut,
            rule,
            last,
            stages,
            workers,
            batch,
        } => {
            let terms = Terms {
                samples,
                cut,
                rule,
                last,
                stages,
            };
            let options = ChainOptions {
                terms,
                workers,
                batch,
            };
            run_chain(rt, gate, alloc, &options, portfolio, inputs, outputs)
        }
        Command::Eltcalc { .. } | Command::Kat | Command::Convert(_) | Command::Gen { .. } => {
            unreachable!()
        }
    }
}

/// Loads the tables of a command and makes their checks, and runs its tool over them. Nothing is written where they are refused.
fn load_and_run<R: Threads + Sync, G: Gate + Sync, I: Inputs, O: Outputs, S: Source, K: Sink>(
    rt: &R,
    gate: &G,
    alloc: Global,
    command: Command,
    need: Need,
    inputs: &mut I,
    outputs: &mut O,
    source: &mut S,
    sink: &mut K,
) -> Result<(), ToolStop>
    requires command { IsCommand command }
    requires need { need_of_command command ≡ Some need }
    ensures ends { (words : List (List ℕ)) → ToolEnds (command_uses command) (command_outcome words command) (world (I.state inputs.old) (O.state outputs.old) (S.state source.old) (K.state sink.old)) (world (I.state inputs.new) (O.state outputs.new) (S.state source.new) (K.state sink.new)) (end_status result) }
    ensures due { TablesFirst command (world (I.state inputs.old) (O.state outputs.old) (S.state source.old) (K.state sink.old)) (world (I.state inputs.new) (O.state outputs.new) (S.state source.new) (K.state sink.new)) }
{
    match load(alloc, inputs, need) {
        Ok(portfolio) => run_tool(
            rt, gate, alloc, command, &portfolio, inputs, outputs, source, sink,
        ),
        Err(stop) => Err(load_stop(stop)),
    }
}

/// Runs a command: over its tables, or by itself where it needs none.
fn run_command<R: Threads + Sync, G: Gate + Sync, I: Inputs, O: Outputs, S: Source, K: Sink>(
    rt: &R,
    gate: &G,
    alloc: Global,
    words: &Words,
    command: Command,
    inputs: &mut I,
    outputs: &mut O,
    source: &mut S,
    sink: &mut K,
) -> Result<(), ToolStop>
    requires command { IsCommand command }
    requires names { command ≡ Command.Kat → 0 < length (file_names words.now) }
    ensures ends { ToolEnds (command_uses command) (command_outcome words.now command) (world (I.state inputs.old) (O.state outputs.old) (S.state source.old) (K.state sink.old)) (world (I.state inputs.new) (O.state outputs.new) (S.state source.new) (K.state sink.new)) (end_status result) }
    ensures due { AllFirst words.now command (world (I.state inputs.old) (O.state outputs.old) (S.state source.old) (K.state sink.old)) (world (I.state inputs.new) (O.state outputs.new) (S.state source.new) (K.state sink.new)) }
{
    match command {
        Command::Eltcalc { heading } => write_event_losses(alloc, heading, source, sink),
        Command::Kat => kat(alloc, words, inputs, sink),
        Command::Convert(conversion) => convert(alloc, conversion, source, sink),
        Command::Gen {
            seed,
            items,
            events,
            workers,
        } => write_generated(rt, gate, alloc, seed, items, events, workers, sink),
        _ => match command_need(command) {
            Some(need) => load_and_run(
                rt, gate, alloc, command, need, inputs, outputs, source, sink,
            ),
            None => unreachable!(),
        },
    }
}

/// Runs the command of the words up to its status, without the report of a refusal.
fn carry_out<R: Threads + Sync, G: Gate + Sync, I: Inputs, O: Outputs, S: Source, K: Sink>(
    rt: &R,
    gate: &G,
    alloc: Global,
    words: &Words,
    inputs: &mut I,
    outputs: &mut O,
    source: &mut S,
    sink: &mut K,
) -> Status
    ensures ends { ToolEnds (words_use (command_of words.now)) (outcome words.now) (world (I.state inputs.old) (O.state outputs.old) (S.state source.old) (K.state sink.old)) (world (I.state inputs.new) (O.state outputs.new) (S.state source.new) (K.state sink.new)) result }
    ensures words { AnswersWords (command_of words.now) result }
    ensures due { InOrder words.now (command_of words.now) (world (I.state inputs.old) (O.state outputs.old) (S.state source.old) (K.state sink.old)) (world (I.state inputs.new) (O.state outputs.new) (S.state source.new) (K.state sink.new)) }
{
    match read_command(words) {
        Ok(command) => status_of(run_command(
            rt, gate, alloc, words, command, inputs, outputs, source, sink,
        )),
        Err(stop) => Status::Words(stop),
    }
}

/// Runs the command that the words name, over the objects outside: tables come from `inputs`, files
/// go to `outputs`, a stream comes from `source`, a stream or a table goes to `sink`, and the line of
/// a refusal to `err`. It returns for every command.
///
/// `RunEnded` of kt_ends says a sentence a field how it ends. What it says of the words and the input rests on those objects alone
/// that the command uses and that tell what they hold. Where the words are faulty, or the tables refused, or the files of `kat` or the
/// set of `gen`, no object behind them was due yet, so that none of its failures hides the refusal; and a refusal that was found is the
/// answer, so that none of the later failures hides it. What a later refusal leaves of the source is not promised.
pub fn run<R: Threads + Sync, G: Gate + Sync, I: Inputs, O: Outputs, S: Source, K: Sink, E: Sink>(
    rt: &R,
    alloc: Global,
    gate: &G,
    words: &Words,
    inputs: &mut I,
    outputs: &mut O,
    source: &mut S,
    sink: &mut K,
    err: &mut E,
) -> Status
    ensures ends { RunEnds words.now (world (I.state inputs.old) (O.state outputs.old) (S.state source.old) (K.state sink.old)) (world (I.state inputs.new) (O.state outputs.new) (S.state source.new) (K.state sink.new)) (E.state err.old) (E.state err.new) result }

    // Whatever the answer is: faulty words leave the output files, the source and the sink as they were, and so do tables, files and sets
    // that are refused.
    ensures due { InOrder words.now (command_of words.now) (world (I.state inputs.old) (O.state outputs.old) (S.state source.old) (K.state sink.old)) (world (I.state inputs.new) (O.state outputs.new) (S.state source.new) (K.state sink.new)) }
{
    let status = carry_out(rt, gate, alloc, words, inputs, outputs, source, sink);
    report(alloc, status, err)
}
