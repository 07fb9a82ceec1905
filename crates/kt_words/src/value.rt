//! What a word says, by its form.
//! The rules: docs/COMMANDS.md, "Words".
ghost use Rattle.std.specs.Prelude.{◌≡◌, ◌≤◌};
ghost use Rattle.std.specs.Char.{is_ascii_digit};
ghost use Rattle.std.specs.List.{list_all};
ghost use Rattle.kt_words.specs.Values.{has_number_form, number_of_word, number_within as number_in, losses_named, stage_named, table_named, value_of};

use crate::rows::Form;
use kt_rec::{Perspective, TABLES, Table};
use kt_text::read_count;

/// The longest word, in bytes.
pub(crate) const LONGEST_WORD: usize = 255;

/// What a word says.
#[derive(Clone, Copy)]
pub enum Value {
    /// That it stands there: a flag, `-`, or the name of a file.
    Bare,
    /// A number, or that of a stage.
    Number(u32),
    /// Losses by perspective.
    Losses(Perspective),
    /// A table.
    Table(Table),
}

/// Whether a word has no byte but digits.
fn has_only_digits(word: &[u8]) -> bool
    ensures { result ≡ list_all is_ascii_digit word.now }
{
    word.iter().all(|byte| byte.is_ascii_digit())
}

/// Whether a word is at most 10 digits.
fn is_short_number(word: &[u8]) -> bool
    ensures { result ≡ has_number_form word.now }
{
    word.len() <= 10 && has_only_digits(word)
}

/// The number that a word is, of 1 to 10 digits.
fn number(word: &[u8]) -> Option<u64>
    ensures { result ≡ number_of_word word.now }
{
    if !is_short_number(word) {
        return None;
    }
    match read_count(word) {
        Ok(value) => Some(value),
        Err(_) => None,
    }
}

/// The number that a word is, from the least to the most.
fn number_within(word: &[u8], least: u32, most: u32) -> Option<Value>
    ensures { result ≡ number_in least most word.now }
{
    match number(word) {
        Some(value) if least as u64 <= value && value <= most as u64 => {
            Some(Value::Number(value as u32))
        }
        _ => None,
    }
}

/// The perspective that a word names.
fn losses(word: &[u8]) -> Option<Value>
    ensures { result ≡ losses_named word.now }
{
    if word == b"gul".as_slice() {
        Some(Value::Losses(Perspective::Gul))
    } else if word == b"il".as_slice() {
        Some(Value::Losses(Perspective::Il))
    } else if word == b"ri".as_slice() {
        Some(Value::Losses(Perspective::Ri))
    } else {
        None
    }
}

/// The number of the stage that a word names, 1 to 9.
fn stage(word: &[u8]) -> Option<Value>
    ensures { result ≡ stage_named word.now }
{
    if word.len() != 4 || &word[..3] != b"RI_".as_slice() {
        return None;
    }
    let digit = word[3];
    if b'1' <= digit && digit <= b'9' {
        Some(Value::Number((digit - b'0') as u32))
    } else {
        None
    }
}

/// The table that a word names.
fn table(word: &[u8]) -> Option<Value>
    ensures { result ≡ table_named word.now }
{
    match TABLES.iter().find(|table| table.name() == word) {
        Some(table) => Some(Value::Table(*table)),
        None => None,
    }
}

/// What a word of this form says; `None` where it has not the form.
pub(crate) fn read_value(form: Form, word: &[u8]) -> Option<Value>
    ensures { result ≡ value_of form word.now }
{
    match form {
        Form::Flag => None,
        Form::Number(least, most) => number_within(word, least, most),
        Form::Dash if word == b"-".as_slice() => Some(Value::Bare),
        Form::Dash => None,
        Form::Losses => losses(word),
        Form::Stage => stage(word),
        Form::TableName => table(word),
        Form::FileName => Some(Value::Bare),
    }
}
