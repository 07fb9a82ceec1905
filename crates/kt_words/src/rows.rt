//! What a row of the table of words says.
//! The rules: docs/COMMANDS.md, "Words".
ghost use Rattle.std.specs.Prelude.{◌≡◌, ◌≤◌};
ghost use Rattle.kt_words.specs.Rows.{letter_of, form_of, is_of_choice as one_of_choice, option_of_rule, form_at, wants_at};

/// What stands in a word: the form of a value or a plain word.
#[derive(Clone, Copy)]
pub enum Form {
    /// Nothing: the option is a flag.
    Flag,
    /// A number of 1 to 10 digits, from the first to the second of these.
    Number(u32, u32),
    /// `-`, and nothing else.
    Dash,
    /// `gul`, `il` or `ri`.
    Losses,
    /// `RI_1` to `RI_9`.
    Stage,
    /// The name of a table.
    TableName,
    /// Any word: the name of a file.
    FileName,
}

/// An option of a tool: its letter and the form of its value.
#[derive(Clone, Copy)]
pub enum OptionRow {
    /// It may be left out.
    Free(u8, Form),
    /// It is needed.
    Needed(u8, Form),
    /// Exactly one option of the choice is needed. A choice is named by the letter of its first option.
    OneOf(u8, u8, Form),
}

/// The plain words of a tool. All of them are needed.
#[derive(Clone, Copy)]
pub enum PlainRow {
    /// None.
    Nothing,
    /// One.
    One(Form),
    /// Two.
    Two(Form, Form),
    /// Three.
    Three(Form, Form, Form),
    /// One or more of the same form.
    Many(Form),
}

/// What the words may have said.
#[derive(Clone, Copy)]
pub enum Condition {
    /// Whatever they said.
    Always,
    /// The option was not given.
    Absent(u8),
    /// The option has the value 0.
    Zero(u8),
    /// The option has the value `ri`.
    Net(u8),
    /// The option has not the value `ri`.
    NotNet(u8),
    /// The first plain word is the table `occurrence`.
    Periods,
    /// The first plain word is another table, or there is none.
    NoPeriods,
}

/// How an option goes with the other words.
#[derive(Clone, Copy)]
pub enum Rule {
    /// The option is needed where this holds.
    NeededWhere(u8, Condition),
    /// The option is refused where both of these hold.
    RefusedWhere(u8, Condition, Condition),
}

impl OptionRow {
    /// The option's letter.
    pub(crate) fn letter(self) -> u8
        ensures { result ≡ letter_of self }
    {
        match self {
            OptionRow::Free(letter, _)
            | OptionRow::Needed(letter, _)
            | OptionRow::OneOf(_, letter, _) => letter,
        }
    }

    /// The form of its value.
    pub(crate) fn form(self) -> Form
        ensures { result ≡ form_of self }
    {
        match self {
            OptionRow::Free(_, form) | OptionRow::Needed(_, form) | OptionRow::OneOf(_, _, form) =>
                { form }
        }
    }

    /// Whether it is an option of this choice.
    pub(crate) fn is_of_choice(self, choice: u8) -> bool
        ensures { result ≡ one_of_choice choice self }
    {
        match self {
            OptionRow::OneOf(own, _, _) => own == choice,
            _ => false,
        }
    }
}

impl Rule {
    /// The letter of the option that it speaks of.
    pub(crate) fn letter(self) -> u8
        ensures { result ≡ option_of_rule self }
    {
        match self {
            Rule::NeededWhere(letter, _) | Rule::RefusedWhere(letter, _, _) => letter,
        }
    }
}

impl PlainRow {
    /// The form of the plain word behind so many others; of three and more alike.
    pub(crate) fn form_behind(self, place: u32) -> Option<Form>
        ensures { result ≡ form_at self place }
    {
        match (self, place) {
            (PlainRow::One(form), 0)
            | (PlainRow::Two(form, _), 0)
            | (PlainRow::Two(_, form), 1)
            | (PlainRow::Three(form, _, _), 0)
            | (PlainRow::Three(_, form, _), 1)
            | (PlainRow::Three(_, _, form), 2)
            | (PlainRow::Many(form), _) => Some(form),
            _ => None,
        }
    }

    /// Whether a plain word is needed behind so many others.
    pub(crate) fn needs_behind(self, place: u32) -> bool
        ensures { result ≡ wants_at self place }
    {
        match self {
            PlainRow::Many(_) => place == 0,
            _ => self.form_behind(place).is_some(),
        }
    }
}
