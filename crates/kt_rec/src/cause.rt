//! What is wrong with a row or a field of a table.
//! The rule: docs/TABLES.md, "What is refused".

/// What is wrong with a row or a field.
#[derive(Clone, Copy)]
pub enum Cause {
    /// The row has another number of fields than the table has columns.
    Columns,
    /// The text has not the form of a number.
    NotANumber,
    /// The number has more than 18 digits.
    TooManyDigits,
    /// The exponent is not from -30 to 30.
    ExponentRange,
    /// The value is above the range of its kind.
    TooLarge,
    /// The value is below the range of its kind.
    Zero,
    /// The value is no calculation rule.
    Rule,
    /// The event is below that of the row before.
    Order,
}
