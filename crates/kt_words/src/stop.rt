//! Which word is refused, and why.
//! The rules: docs/COMMANDS.md, "Words".

/// Why a word is refused.
#[derive(Clone, Copy)]
pub enum WordCause {
    /// A word is wanted that is not there.
    Missing,
    /// The first word is no tool.
    UnknownTool,
    /// The word is no option of the tool.
    UnknownOption,
    /// The option was given before.
    Repeated,
    /// The option is the last word, and a value is wanted behind it.
    NeedsValue,
    /// The value has not its form, or is out of its range; or the word is too long.
    BadValue,
    /// There is a word too many.
    Unexpected,
    /// The option does not go together with the other words.
    NotTogether,
    /// There is no part of this number among so many.
    BadPart,
}

/// The first faulty word, and why it is refused.
#[derive(Clone, Copy)]
pub struct WordStop {
    /// The number of the word, counted from 1; of a missing word, the number that it would have.
    pub word: u32,
    /// Why it is refused.
    pub cause: WordCause,
}
