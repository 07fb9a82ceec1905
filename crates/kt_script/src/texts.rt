//! Numbers, patterns, words and bytes, as a case writes them.
//! The language: README.md, "Words and bytes".
//! The rule: docs/PROVING.md, "Tests".

use crate::not_taken::NotTaken;
use std::alloc::{AllocError, Global};

/// The number that a word is.
pub(crate) fn number(word: &str) -> Result<u32, NotTaken> {
    match word.parse::<u32>() {
        Ok(number) => Ok(number),
        Err(_) => Err(NotTaken),
    }
}

/// The first and the last number of a range, `A..B`, or of a number alone.
pub(crate) fn range(word: &str) -> Result<(u32, u32), NotTaken> {
    let (first, last) = word.split_once("..").unwrap_or((word, word));
    Ok((number(first)?, number(last)?))
}

/// A pattern with a number in place of each `#`.
pub(crate) fn numbered(alloc: Global, pattern: &str, number: u32) -> Result<String, AllocError> {
    let mut text = String::new(alloc);
    for (n, part) in pattern.split('#').enumerate() {
        if n > 0 {
            text.push_str(format!(in alloc; "{number}")?.as_str())?;
        }
        text.push_str(part)?;
    }
    Ok(text)
}

/// Appends the rows that a line stands for: itself, or behind `A..B: ` a row for each number from A to B.
pub(crate) fn push_rows(alloc: Global, out: &mut Vec<u8>, line: &str) -> Result<(), NotTaken> {
    let Some((numbers, pattern)) = line.split_once(": ") else {
        out.extend_from_slice(line.as_bytes())?;
        out.push(b'\n')?;
        return Ok(());
    };
    let (first, last) = range(numbers)?;
    for number in first..=last {
        out.extend_from_slice(numbered(alloc, pattern, number)?.as_bytes())?;
        out.push(b'\n')?;
    }
    Ok(())
}

/// The byte that two hexadecimal digits give.
fn hex_byte(digits: &[u8]) -> Option<u8> {
    let text = str::from_utf8(digits).ok()?;
    u8::from_str_radix(text, 16).ok()
}

/// Appends a text, in which `%HH` is a byte by its two digits.
fn push_text(out: &mut Vec<u8>, text: &str) -> Result<(), NotTaken> {
    for (n, part) in text.as_bytes().split(|byte| *byte == b'%').enumerate() {
        if n == 0 {
            out.extend_from_slice(part)?;
            continue;
        }
        match part.get(..2).and_then(hex_byte) {
            Some(byte) => out.push(byte)?,
            None => return Err(NotTaken),
        }
        out.extend_from_slice(part.get(2..).unwrap_or(&[]))?;
    }
    Ok(())
}

/// Appends a little-endian number of 1 to 8 bytes.
fn push_number(out: &mut Vec<u8>, width: &str, value: &str) -> Result<(), NotTaken> {
    let Ok(value) = value.parse::<u64>() else {
        return Err(NotTaken);
    };
    let bytes = value.to_le_bytes();
    match bytes.get(..number(width)? as usize) {
        Some(front) => out.extend_from_slice(front)?,
        None => return Err(NotTaken),
    }
    Ok(())
}

/// Appends what a word stands for: `WIDTH:VALUE` a number, `''` nothing, any other its text.
fn push_piece(out: &mut Vec<u8>, word: &str) -> Result<(), NotTaken> {
    match word.split_once(':') {
        Some((width, value)) => push_number(out, width, value),
        None if word == "''" => Ok(()),
        None => push_text(out, word),
    }
}

/// Appends what a word stands for; `WORD*N` is the word N times.
pub(crate) fn push_word(out: &mut Vec<u8>, word: &str) -> Result<(), NotTaken> {
    let (word, times) = word.split_once('*').unwrap_or((word, "1"));
    for _ in 0..number(times)? {
        push_piece(out, word)?;
    }
    Ok(())
}
