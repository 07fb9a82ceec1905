//! What the words of a call ask for.
//! The rules: docs/COMMANDS.md, "Words".
ghost use Rattle.std.specs.Prelude.{◌≡◌, Ok, IfOk};
ghost use Rattle.kt_eve.specs.Parts.{has_part};
ghost use Rattle.kt_words.specs.FileNames.{file_names, AreFileNames};
ghost use Rattle.kt_words.specs.Fits.{IsRead};
ghost use Rattle.kt_words.specs.Command.{number_or_0, number_or, table_or_first, word_or_0, set_given, curve_given, losses_or_first, financial_command, summary_command, to_text, eve_command, chain_command, gen_command, command_from, command_of, IsSet, IsCommand};
ghost use Rattle.kt_words.specs.declared.command.Command.TheVariants.{Kat};
ghost use Rattle.kt_words.specs.declared.tool.Tool.TheVariants.{Fmcalc};

use crate::given::{Given, GivenWord};
use crate::judging::refused;
use crate::reading::read_given;
use crate::stop::{WordCause, WordStop};
use crate::tool::{Tool, read_tool};
use crate::value::Value;
use crate::words::Words;
use kt_rec::{Curve, Perspective, Table};

/// A way from one form of a table to the other.
#[derive(Clone, Copy, Debug)]
pub enum Conversion {
    /// From text to file.
    ToFile {
        /// The table.
        table: Table,
        /// The number of periods for `occurrence`, and 0 else.
        periods: u32,
    },
    /// From file to text: each table but the footprint, whose text needs its index too.
    ToText {
        /// The table.
        table: Table,
    },
}

/// What the words ask for.
#[derive(Clone, Copy, Debug)]
pub enum Command {
    /// Insured losses.
    Fmcalc {
        /// The allocation rule, from 0 to 2.
        rule: u32,
    },
    /// Losses net of what the layers of a programme take.
    FmcalcNet {
        /// The allocation rule, 1 or 2.
        rule: u32,
        /// The reinsurance stage, from 1 to 9; 0 for the base.
        stage: u32,
    },
    /// The losses of the summaries of a set.
    Summarycalc {
        /// Whether the losses are those of items, else of outputs of a programme.
        items: bool,
        /// The summary set, from 1 to 9.
        set: u32,
        /// The allocation rule by which the losses of outputs were made.
        rule: u32,
    },
    /// The event loss table of a summary stream.
    Eltcalc {
        /// Whether the table begins with the names of its columns.
        heading: bool,
    },
    /// The period loss table of a summary stream.
    Pltcalc {
        /// Whether the table begins with the names of its columns.
        heading: bool,
    },
    /// The average annual losses of a summary stream.
    Aalcalc,
    /// A loss exceedance curve of a summary stream.
    Leccalc {
        /// Which curve.
        curve: Curve,
    },
    /// The streams of some files as one. The names of the files are all words behind the first.
    Kat,
    /// The damage distributions of events.
    Getmodel,
    /// The ground-up losses of a stream of damage distributions.
    Gulcalc {
        /// The number of samples, 1 to 1,000.
        samples: u32,
        /// Whether the losses of a coverage are cut to its insured value.
        cut: bool,
    },
    /// A table in its other form.
    Convert(Conversion),
    /// The text of the footprint, from its file and its index.
    FootprintText,
    /// The events of a part of the event list.
    Eve {
        /// The number of the part, from 1.
        part: u32,
        /// How many parts there are.
        parts: u32,
    },
    /// All stages of a run in one, and all its files.
    Chain {
        /// The number of samples, 1 to 1,000.
        samples: u32,
        /// Whether the losses of a coverage are cut to its insured value.
        cut: bool,
        /// The allocation rule, from 0 to 2; of net losses 1 or 2.
        rule: u32,
        /// The last losses that are computed.
        last: Perspective,
        /// The number of reinsurance stages: of net losses 1 to 9, and 0 else.
        stages: u32,
        /// The number of workers, 1 to 16.
        workers: u32,
        /// The number of events of a part of a round, 1 to 4.
        batch: u32,
    },
    /// A run of all stages over a made-up input set, in memory.
    Gen {
        /// The seed of the set.
        seed: u32,
        /// How many items it has, 1 to 9,000.
        items: u32,
        /// How many events it has, 1 to 10,000.
        events: u32,
        /// The number of workers, 1 to 16.
        workers: u32,
    },
}

/// The number that a word said; 0 where there is none.
fn number(given: Option<GivenWord>) -> u32
    ensures { result ≡ number_or_0 given }
{
    match given {
        Some(
            GivenWord {
                value: Value::Number(number),
                ..
            },
        ) => number,
        _ => 0,
    }
}

/// The table that a word said; the first where there is none.
fn table(given: Option<GivenWord>) -> Table
    ensures { result ≡ table_or_first given }
{
    match given {
        Some(
            GivenWord {
                value: Value::Table(table),
                ..
            },
        ) => table,
        _ => Table::Events,
    }
}

/// The losses that a word said; ground-up losses where there is none.
fn losses(given: Option<GivenWord>) -> Perspective
    ensures { result ≡ losses_or_first given }
{
    match given {
        Some(
            GivenWord {
                value: Value::Losses(perspective),
                ..
            },
        ) => perspective,
        _ => Perspective::Gul,
    }
}

/// The number of a word; 0 where there is none.
fn word_number(given: Option<GivenWord>) -> u32
    ensures { result ≡ word_or_0 given }
{
    match given {
        Some(given) => given.word,
        None => 0,
    }
}

/// The number that a word said; the other number where there is none.
fn number_or(given: Option<GivenWord>, other: u32) -> u32
    ensures { result ≡ number_or given other }
{
    match given {
        Some(_) => number(given),
        None => other,
    }
}

/// The summary set of the first option among `-1` to `-8` that was given; 9 where none was.
fn set_given(given: &Given) -> u32
    ensures value { result ≡ set_given given.now }
    ensures keeps { IsSet result }
{
    if given.has(b'1') {
        return 1;
    }
    if given.has(b'2') {
        return 2;
    }
    if given.has(b'3') {
        return 3;
    }
    if given.has(b'4') {
        return 4;
    }
    if given.has(b'5') {
        return 5;
    }
    if given.has(b'6') {
        return 6;
    }
    if given.has(b'7') {
        return 7;
    }
    if given.has(b'8') { 8 } else { 9 }
}

/// The first curve whose letter was given, in the order of the letters F f S s W w M; `m` where none of these was.
fn curve_given(given: &Given) -> Curve
    ensures { result ≡ curve_given given.now }
{
    if given.has(b'F') {
        return Curve::FullAep;
    }
    if given.has(b'f') {
        return Curve::FullOep;
    }
    if given.has(b'S') {
        return Curve::SampleAep;
    }
    if given.has(b's') {
        return Curve::SampleOep;
    }
    if given.has(b'W') {
        return Curve::WheatAep;
    }
    if given.has(b'w') {
        return Curve::WheatOep;
    }
    if given.has(b'M') {
        Curve::WheatmeanAep
    } else {
        Curve::WheatmeanOep
    }
}

/// The insured losses, or with `-n` those net of the base, or with `-p` too those net of a stage.
fn financial_command(given: &Given) -> Command
    requires read { IsRead Fmcalc given.now }
    ensures value { result ≡ financial_command given.now }
    ensures keeps { IsCommand result }
{
    let rule = number(given.option(b'a'));
    if given.has(b'n') {
        let stage = number(given.option(b'p'));
        Command::FmcalcNet { rule, stage }
    } else {
        Command::Fmcalc { rule }
    }
}

/// The summaries of the set that the words named.
fn summary_command(given: &Given) -> Command
    ensures value { result ≡ summary_command given.now }
    ensures keeps { IsCommand result }
{
    Command::Summarycalc {
        items: given.has(b'i'),
        set: set_given(given),
        rule: number_or(given.option(b'a'), 2),
    }
}

/// The text of a table: that of the footprint needs its index too.
fn text_command(table: Table) -> Command
    ensures value { result ≡ to_text table }
    ensures keeps { IsCommand result }
{
    match table {
        Table::Footprint => Command::FootprintText,
        table => Command::Convert(Conversion::ToText { table }),
    }
}

/// Whether there is a part of this number among so many.
fn is_part(part: u32, parts: u32) -> bool
    ensures { result ≡ has_part part parts }
{
    1 <= part && part <= parts
}

/// The part of the event list by its number and how many there are.
fn part_command(given: &Given) -> Result<Command, WordStop>
    ensures value { result ≡ eve_command given.now }
    ensures keeps { IfOk result (λ command. IsCommand command) }
{
    let (part, parts) = (number(given.first), number(given.second));
    if is_part(part, parts) {
        Ok(Command::Eve { part, parts })
    } else {
        refused(word_number(given.first), WordCause::BadPart)
    }
}

/// All stages of a run: the losses of a coverage are cut, by rule 2, and one worker makes parts of four events, where the words
/// say nothing else.
fn chain_command(given: &Given) -> Command
    ensures value { result ≡ chain_command given.now }
{
    Command::Chain {
        samples: number(given.option(b'S')),
        cut: number_or(given.option(b'g'), 1) == 1,
        rule: number_or(given.option(b'a'), 2),
        last: losses(given.option(b'l')),
        stages: number(given.option(b'r')),
        workers: number_or(given.option(b'w'), 1),
        batch: number_or(given.option(b'b'), 4),
    }
}

/// A run over a made-up set of this seed, and of so many items and events: one worker where the words say nothing else.
fn gen_command(given: &Given) -> Command
    ensures value { result ≡ gen_command given.now }
{
    Command::Gen {
        seed: number(given.first),
        items: number(given.second),
        events: number(given.third),
        workers: number_or(given.option(b'w'), 1),
    }
}

/// The command of a tool by what its words said.
fn tool_command(tool: Tool, given: &Given) -> Result<Command, WordStop>
    requires read { IsRead tool given.now }
    ensures value { result ≡ command_from tool given.now }
    ensures keeps { IfOk result (λ command. IsCommand command) }
{
    match tool {
        Tool::Fmcalc => Ok(financial_command(given)),
        Tool::Summarycalc => Ok(summary_command(given)),
        Tool::Eltcalc => Ok(Command::Eltcalc {
            heading: !given.has(b's'),
        }),
        Tool::Pltcalc => Ok(Command::Pltcalc {
            heading: !given.has(b's'),
        }),
        Tool::Aalcalc => Ok(Command::Aalcalc),
        Tool::Leccalc => Ok(Command::Leccalc {
            curve: curve_given(given),
        }),
        Tool::Kat => Ok(Command::Kat),
        Tool::Getmodel => Ok(Command::Getmodel),
        Tool::Gulcalc => Ok(Command::Gulcalc {
            samples: number(given.option(b'S')),
            cut: number(given.option(b'a')) == 1,
        }),
        Tool::Tobin => Ok(Command::Convert(Conversion::ToFile {
            table: table(given.first),
            periods: number(given.option(b'P')),
        })),
        Tool::Tocsv => Ok(text_command(table(given.first))),
        Tool::Eve => part_command(given),
        Tool::Chain => Ok(chain_command(given)),
        Tool::Gen => Ok(gen_command(given)),
    }
}

/// The command that the words are, or the first faulty word. No words have a first that is missing. A first word that is
/// no tool is an unknown tool. Behind it each word is judged by itself, from left to right; then come the words
/// that are missing, those that do not go together, and a part that there is not. Where it is `Kat`, the words behind the first are
/// one or more names of files.
pub fn read_command(words: &Words) -> Result<Command, WordStop>
    ensures value { result ≡ command_of words.now }
    ensures keeps { IfOk result (λ command. IsCommand command) }
    ensures names { result ≡ Ok Kat → AreFileNames (file_names words.now) }
{
    if words.len() == 0 {
        return refused(1, WordCause::Missing);
    }
    let tool = match read_tool(words.word(0)) {
        Ok(tool) => tool,
        Err(cause) => return refused(1, cause),
    };
    match read_given(tool, words) {
        Ok(given) => tool_command(tool, &given),
        Err(stop) => Err(stop),
    }
}
