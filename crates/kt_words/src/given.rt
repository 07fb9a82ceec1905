//! What the words of a tool have said so far, word by word.
//! The rules: docs/COMMANDS.md, "Words".
ghost use Rattle.std.specs.Prelude.{◌≡◌, ◌≤◌, ◌<◌, length};
ghost use Rattle.std.specs.Option.{option_copied};
ghost use Rattle.kt_words.specs.Given.{none_given, given_at, given_word, is_given, has_choice as has_one_of, doubles as is_second, doubled_by as first_second, option_named, place_of, with_entry, with_value as value_kept, with_text as text_read, with_flag as flag_given, with_valued as valued_given, with_row as row_given, with_option as option_given, with_place as place_kept, with_plain as plain_read, with_own as own_read, with_word as word_step};

use crate::rows::{Form, OptionRow};
use crate::stop::WordCause;
use crate::table::{options, plain_words};
use crate::tool::Tool;
use crate::value::{LONGEST_WORD, Value, read_value};

/// A word that was given.
#[derive(Clone, Copy)]
pub struct GivenWord {
    /// Its number, counted from 1; of an option with a value, that of the option.
    pub word: u32,
    /// What it says, or what the option's value says.
    pub value: Value,
}

/// An option whose value is the next word.
#[derive(Clone, Copy)]
pub struct Awaited {
    /// The option.
    pub option: OptionRow,
    /// The number of its word, counted from 1.
    pub word: u32,
}

/// What the words of a tool have said so far.
#[derive(Clone, Copy)]
pub struct Given {
    /// The options that were given, each at the place of its letter.
    pub options: [Option<GivenWord>; 256],
    /// The first plain word.
    pub first: Option<GivenWord>,
    /// The second plain word.
    pub second: Option<GivenWord>,
    /// The third plain word.
    pub third: Option<GivenWord>,
    /// The number of the first word that is a second option of its choice.
    pub doubled: Option<u32>,
    /// The option whose value is the next word.
    pub awaited: Option<Awaited>,
}

/// The option of a tool with this letter.
fn find_option(tool: Tool, letter: u8) -> Option<&'static OptionRow>
    ensures { option_copied result ≡ option_named tool letter }
{
    options(tool).iter().find(|row| row.letter() == letter)
}

impl Given {
    /// No word was read.
    pub(crate) fn new() -> Self
        ensures { result ≡ none_given }
    {
        Given {
            options: [None; 256],
            first: None,
            second: None,
            third: None,
            doubled: None,
            awaited: None,
        }
    }

    /// The word that gave the option of this letter.
    pub(crate) fn option(&self, letter: u8) -> Option<GivenWord>
        ensures { result ≡ given_at self.now letter }
    {
        self.options[letter as usize]
    }

    /// The number of the word that gave the option of this letter.
    pub(crate) fn word_of(&self, letter: u8) -> Option<u32>
        ensures { result ≡ given_word self.now letter }
    {
        match self.option(letter) {
            Some(given) => Some(given.word),
            None => None,
        }
    }

    /// Whether the option of this letter was given.
    pub(crate) fn has(&self, letter: u8) -> bool
        ensures { result ≡ is_given self.now letter }
    {
        self.option(letter).is_some()
    }

    /// Whether an option of this choice was given.
    pub(crate) fn has_choice(&self, tool: Tool, choice: u8) -> bool
        ensures { result ≡ has_one_of self.now tool choice }
    {
        options(tool)
            .iter()
            .any(|row| row.is_of_choice(choice) && self.has(row.letter()))
    }

    /// Whether an option would be a second one of its choice.
    fn doubles(&self, tool: Tool, row: OptionRow) -> bool
        ensures { result ≡ is_second self.now tool row }
    {
        match row {
            OptionRow::OneOf(choice, _, _) => self.has_choice(tool, choice),
            _ => false,
        }
    }

    /// The number of the first word that is a second option of its choice, with an option more.
    fn doubled_by(&self, tool: Tool, row: OptionRow, word: u32) -> Option<u32>
        ensures { result ≡ first_second self.now tool row word }
    {
        if self.doubled.is_some() {
            return self.doubled;
        }
        if self.doubles(tool, row) {
            return Some(word);
        }
        None
    }

    /// With an option, by what its value says.
    fn with_value(self, tool: Tool, row: OptionRow, word: u32, value: Value) -> Self
        ensures { result ≡ value_kept self tool row word value }
    {
        let doubled = self.doubled_by(tool, row, word);
        let mut options = self.options;
        options[row.letter() as usize] = Some(GivenWord { word, value });
        Given {
            options,
            doubled,
            awaited: None,
            ..self
        }
    }

    /// With an option whose word has that number, by the text of its value.
    fn with_text(
        self,
        tool: Tool,
        row: OptionRow,
        word: u32,
        text: &[u8],
    ) -> Result<Self, WordCause>
        ensures { result ≡ text_read self tool row word text.now }
    {
        match read_value(row.form(), text) {
            Some(value) => Ok(self.with_value(tool, row, word, value)),
            None => Err(WordCause::BadValue),
        }
    }

    /// With a flag, to which nothing may be attached.
    fn with_flag(
        self,
        tool: Tool,
        row: OptionRow,
        word: u32,
        attached: &[u8],
    ) -> Result<Self, WordCause>
        ensures { result ≡ flag_given self tool row word attached.now }
    {
        if !attached.is_empty() {
            return Err(WordCause::UnknownOption);
        }
        if self.has(row.letter()) {
            return Err(WordCause::Repeated);
        }
        Ok(self.with_value(tool, row, word, Value::Bare))
    }

    /// With an option that has a value: what is attached to it, or else the next word.
    fn with_valued(
        self,
        tool: Tool,
        row: OptionRow,
        word: u32,
        attached: &[u8],
    ) -> Result<Self, WordCause>
        ensures { result ≡ valued_given self tool row word attached.now }
    {
        if self.has(row.letter()) {
            return Err(WordCause::Repeated);
        }
        if attached.is_empty() {
            return Ok(Given {
                awaited: Some(Awaited { option: row, word }),
                ..self
            });
        }
        self.with_text(tool, row, word, attached)
    }

    /// With an option of the tool, to which so much is attached.
    fn with_row(
        self,
        tool: Tool,
        row: OptionRow,
        word: u32,
        attached: &[u8],
    ) -> Result<Self, WordCause>
        ensures { result ≡ row_given self tool row word attached.now }
    {
        match row.form() {
            Form::Flag => self.with_flag(tool, row, word, attached),
            _ => self.with_valued(tool, row, word, attached),
        }
    }

    /// With an option by its letter, to which so much is attached.
    fn with_option(
        self,
        tool: Tool,
        word: u32,
        letter: u8,
        attached: &[u8],
    ) -> Result<Self, WordCause>
        ensures { result ≡ option_given self tool word letter attached.now }
    {
        match find_option(tool, letter) {
            Some(row) => self.with_row(tool, *row, word, attached),
            None => Err(WordCause::UnknownOption),
        }
    }

    /// How many plain words were given, of three and more three.
    pub(crate) fn place(&self) -> u32
        ensures { result ≡ place_of self.now }
    {
        match (self.first, self.second, self.third) {
            (None, _, _) => 0,
            (Some(_), None, _) => 1,
            (Some(_), Some(_), None) => 2,
            (Some(_), Some(_), Some(_)) => 3,
        }
    }

    /// With a plain word more, of which the first three are kept.
    fn with_place(self, given: GivenWord) -> Self
        ensures { result ≡ place_kept self given }
    {
        match self.place() {
            0 => Given {
                first: Some(given),
                ..self
            },
            1 => Given {
                second: Some(given),
                ..self
            },
            2 => Given {
                third: Some(given),
                ..self
            },
            _ => self,
        }
    }

    /// With a plain word of that number.
    fn with_plain(self, tool: Tool, word: u32, text: &[u8]) -> Result<Self, WordCause>
        ensures { result ≡ plain_read self tool word text.now }
    {
        let Some(form) = plain_words(tool).form_behind(self.place()) else {
            return Err(WordCause::Unexpected);
        };
        match read_value(form, text) {
            Some(value) => Ok(self.with_place(GivenWord { word, value })),
            None => Err(WordCause::BadValue),
        }
    }

    /// With a word that is an option or a plain word.
    fn with_own(self, tool: Tool, word: u32, text: &[u8]) -> Result<Self, WordCause>
        ensures { result ≡ own_read self tool word text.now }
    {
        if text.is_empty() || text[0] != b'-' {
            return self.with_plain(tool, word, text);
        }
        if text.len() == 1 {
            return Err(WordCause::UnknownOption);
        }
        self.with_option(tool, word, text[1], &text[2..])
    }

    /// With one word more, of that number, or what is wrong with it.
    pub(crate) fn with_word(self, tool: Tool, word: u32, text: &[u8]) -> Result<Self, WordCause>
        ensures { result ≡ word_step self tool word text.now }
    {
        if text.len() > LONGEST_WORD {
            return Err(WordCause::BadValue);
        }
        match self.awaited {
            Some(Awaited { option, word }) => self.with_text(tool, option, word, text),
            None => self.with_own(tool, word, text),
        }
    }
}
