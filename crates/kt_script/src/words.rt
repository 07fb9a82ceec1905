//! What words are answered.
//! The language: README.md.
//! The rule: docs/PROVING.md, "Tests".
use crate::not_taken::NotTaken;
use crate::seen::{Seen, ended};
use crate::texts::push_word;
use kt_ends::Status;
use kt_words::{Words, read_command};
use std::alloc::Global;

/// The words of a call. An error is a word that is none of the language, or want of memory.
pub fn words_of(alloc: Global, written: &str) -> Result<Words, NotTaken> {
    let mut words = Words::new(alloc);
    for word in written.split_whitespace() {
        let mut bytes = Vec::new(alloc);
        push_word(&mut bytes, word)?;
        words.push(&bytes)?;
    }
    Ok(words)
}

/// The command that the words are, or the refusal of the first faulty one.
pub fn words_seen(alloc: Global, words: &Words) -> Result<Seen, NotTaken> {
    match read_command(words) {
        Ok(command) => Ok(Seen::of_text(alloc, format!(in alloc; "{command:?}")?)),
        Err(stop) => ended(alloc, Status::Words(stop)),
    }
}
