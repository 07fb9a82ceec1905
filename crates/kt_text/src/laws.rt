//! Theorems over the definitions: what is written plainly is read back.
//! The rules: docs/TABLES.md, "Back again"; docs/PROVING.md, "Laws".

ghost use Rattle.kt_text.specs.Laws.{CountsAreReadBack, AmountsAreReadBack, RowsAreReadBack, FieldsStayFields};

/// Every count below 10^18 is read back from its plain digits.
#[tactic(auto, using(crate::proofs::PlainLemmas::count_plain))]
pub fn counts_are_read_back()
    ensures { CountsAreReadBack }
{}

/// Every amount up to 10^17 is read back from its text with two or six decimals.
#[tactic(auto, using(crate::proofs::PlainLemmas::amount_plain))]
pub fn amounts_are_read_back()
    ensures { AmountsAreReadBack }
{}

/// The rows under a heading are read back from the text that `csv` writes of them by default.
#[tactic(auto, using(crate::proofs::MachineLemmas::rows_plain))]
pub fn rows_are_read_back()
    ensures { RowsAreReadBack }
{}

/// A field at the front of a text is one whatever follows.
#[tactic(auto, using(crate::proofs::PlainRowLemmas::field_front))]
pub fn fields_stay_fields()
    ensures { FieldsStayFields }
{}
