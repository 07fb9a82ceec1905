//! The tools, by name.
//! The rules: docs/COMMANDS.md, "Words".
ghost use Rattle.std.specs.Prelude.{◌≡◌, find};
ghost use Rattle.std.specs.Option.{option_copied};
ghost use Rattle.std.specs.Str.{bytes_eq};
ghost use Rattle.kt_words.specs.Tools.{tool_name, tool_named, known_tool};

use crate::stop::WordCause;
use crate::value::LONGEST_WORD;

/// A tool.
#[derive(Clone, Copy)]
pub enum Tool {
    /// `eve`: the events of a part of the event list.
    Eve,
    /// `getmodel`: the damage distributions of events.
    Getmodel,
    /// `gulcalc`: ground-up losses.
    Gulcalc,
    /// `fmcalc`: insured losses, or losses net of reinsurance.
    Fmcalc,
    /// `summarycalc`: the losses of summaries.
    Summarycalc,
    /// `eltcalc`: an event loss table.
    Eltcalc,
    /// `pltcalc`: a period loss table.
    Pltcalc,
    /// `aalcalc`: average annual losses.
    Aalcalc,
    /// `leccalc`: a loss exceedance curve.
    Leccalc,
    /// `kat`: streams one after the other.
    Kat,
    /// `tobin`: the file of a table, from its text.
    Tobin,
    /// `tocsv`: the text of a table, from its file.
    Tocsv,
    /// `chain`: all steps of a run.
    Chain,
    /// `gen`: a run over made-up tables.
    Gen,
}

/// All tools.
const TOOLS: [Tool; 14] = [
    Tool::Eve,
    Tool::Getmodel,
    Tool::Gulcalc,
    Tool::Fmcalc,
    Tool::Summarycalc,
    Tool::Eltcalc,
    Tool::Pltcalc,
    Tool::Aalcalc,
    Tool::Leccalc,
    Tool::Kat,
    Tool::Tobin,
    Tool::Tocsv,
    Tool::Chain,
    Tool::Gen,
];

impl Tool {
    /// The tool's name, the first word of its calls.
    pub fn name(self) -> &'static [u8]
        ensures { result.now ≡ tool_name self }
    {
        match self {
            Tool::Eve => b"eve",
            Tool::Getmodel => b"getmodel",
            Tool::Gulcalc => b"gulcalc",
            Tool::Fmcalc => b"fmcalc",
            Tool::Summarycalc => b"summarycalc",
            Tool::Eltcalc => b"eltcalc",
            Tool::Pltcalc => b"pltcalc",
            Tool::Aalcalc => b"aalcalc",
            Tool::Leccalc => b"leccalc",
            Tool::Kat => b"kat",
            Tool::Tobin => b"tobin",
            Tool::Tocsv => b"tocsv",
            Tool::Chain => b"chain",
            Tool::Gen => b"gen",
        }
    }

    /// The tool of this name.
    pub fn named(word: &[u8]) -> Option<Tool>
        ensures { result ≡ tool_named word.now }
    {
        find_tool(&TOOLS, word).copied()
    }
}

/// The first of some tools with this name.
fn find_tool<'a>(tools: &'a [Tool], word: &[u8]) -> Option<&'a Tool>
    ensures { option_copied result ≡ find (λ tool. bytes_eq (tool_name tool) word.now) tools.now }
{
    tools.iter().find(|tool| tool.name() == word)
}

/// The tool that a first word names.
pub(crate) fn read_tool(word: &[u8]) -> Result<Tool, WordCause>
    ensures { result ≡ known_tool word.now }
{
    if word.len() > LONGEST_WORD {
        return Err(WordCause::BadValue);
    }
    match Tool::named(word) {
        Some(tool) => Ok(tool),
        None => Err(WordCause::UnknownTool),
    }
}
