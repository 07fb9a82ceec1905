//! The words of the process, each as the bytes that it was given.
//! The rules: docs/COMMANDS.md, "Words".
ghost use Rattle.std.specs.Prelude.{◌≤◌, length, IfOk, IfSome};

use kt_tools::Words;
use std::alloc::{AllocError, Global};
use std::env::{Env, FillError};

/// The bytes that a word may have before the buffer grows.
const FIRST_LENGTH: usize = 4_096;

/// So often the buffer is doubled for one word; no word is so long.
const DOUBLINGS: u32 = 40;

/// The words of the process, behind the name of the program. An error is want of memory.
pub fn words_of<R: Env>(rt: &R, alloc: Global) -> Result<Words, AllocError> {
    let mut words = Words::new(alloc);
    let mut buffer = Vec::new(alloc);
    buffer.resize(FIRST_LENGTH, 0)?;
    for n in 1..usize::MAX {
        let Some(length) = read_word(rt, n, &mut buffer)? else {
            break;
        };
        words.push(&buffer[..length])?;
    }
    Ok(words)
}

/// Reads a word into the front of the buffer, which grows as the word needs it: the length of the
/// word, or `None` behind the last word.
fn read_word<R: Env>(rt: &R, n: usize, buffer: &mut Vec<u8>) -> Result<Option<usize>, AllocError>
    ensures bound { IfOk result (λ word. IfSome word (λ length-of. length-of ≤ length buffer.new.items)) }
{
    for _ in 0..DOUBLINGS {
        match rt.arg(n, buffer.as_mut_slice()) {
            Ok(length) => return Ok(Some(length)),
            Err(FillError::NotPresent) => return Ok(None),
            Err(FillError::TooLong) => buffer.resize(buffer.len().saturating_mul(2), 0)?,
        }
    }
    Err(AllocError)
}
