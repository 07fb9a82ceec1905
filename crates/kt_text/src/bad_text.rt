//! Why a text stands for no number.
//! The rule: docs/TABLES.md, "Numbers in a text".

/// Why a text stands for no number. Where several causes hold, the one that is listed first is told.
#[derive(Clone, Copy)]
pub enum BadText {
    /// The text has not the form of a number.
    NotANumber,
    /// More than 18 digits, leading zeros and zeros at the end of a fraction not counted.
    TooManyDigits,
    /// The exponent is not from -30 to 30.
    ExponentRange,
    /// The rounded value is above 10^17.
    TooLarge,
}
