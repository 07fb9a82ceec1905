//! The two types of rows that a summary record gives.
//! The rules: docs/OUTPUTS.md, "Event loss table".
ghost use Rattle.std.specs.Prelude.{◌≡◌, [], ◌∷◌};
ghost use Rattle.kt_money.specs.NumberText.{count_text};
ghost use Rattle.kt_elt.specs.RowType.{type_number};

/// The type of a row: where its mean and its deviation come from.
#[derive(Clone, Copy)]
pub(crate) enum RowType {
    /// Type 1: computed from the distributions.
    Analytical,
    /// Type 2: those of the samples.
    Sample,
}

impl RowType {
    /// The type's number, which is one digit, as text.
    pub(crate) fn digit(self) -> u8
        ensures value { count_text (type_number self) ≡ result ∷ [] }
    {
        match self {
            RowType::Analytical => b'1',
            RowType::Sample => b'2',
        }
    }
}
