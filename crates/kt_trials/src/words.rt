//! The words of a call.
//! The rule: docs/PROVING.md, "Tests".

use crate::failure::Failure;
use kt_tools::Words;
use std::alloc::Global;

/// The words that stand between blanks.
pub(crate) fn words_of(alloc: Global, written: &str) -> Result<Words, Failure> {
    let mut words = Words::new(alloc);
    for word in written.split_whitespace() {
        words.push(word.as_bytes())?;
    }
    Ok(words)
}
