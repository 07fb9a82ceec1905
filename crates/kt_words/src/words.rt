//! The words of a call.
//! The rules: docs/COMMANDS.md, "Words".
ghost use Rattle.std.specs.Prelude.{◌≡◌, ◌+◌, ◌<◌, ◌≤◌, List, [], ◌∷◌, ◌++◌, length, OnOk, OnErr, slice_get, Some};

use std::alloc::{AllocError, Global};
use std::marker::Model;

/// The most words of a call: the number of a word, and one more, is a `u32`.
pub const WORDS_LIMIT: usize = 4_294_967_294;

/// A list of byte strings: the words of a call after the program's name.
#[derive(Drop)]
pub struct Words {
    alloc: Global,
    items: Vec<Vec<u8>>,
}

impl Model for Words {
    ghost use Rattle.std.specs.Prelude.{ℕ, List, ◌≤◌, length};
    ghost use Rattle.kt_words.specs.Words.{word_bytes};

    ghost Value = { List (List ℕ) };

    ghost view = { λ w. word_bytes w.items.items };

    ghost invariant = { λ w. length w.items.items ≤ 4294967294 };
}

impl Words {
    /// No words. Asks for no memory.
    pub fn new(alloc: Global) -> Words
        ensures value { result ≡ [] }
    {
        Words {
            alloc,
            items: Vec::new(alloc),
        }
    }

    /// Appends a word. Refused for want of memory, and where there are 4,294,967,294 words already;
    /// the list is then as it was.
    pub fn push(&mut self, word: &[u8]) -> Result<(), AllocError>
        ensures ok { OnOk result (self.new ≡ self.old ++ word.now ∷ []) }

        ensures memory { OnErr result (self.new ≡ self.old) }
    {
        if self.items.len() >= WORDS_LIMIT {
            return Err(AllocError);
        }
        let item = Vec::from_slice(self.alloc, word)?;
        self.items.push(item)?;
        Ok(())
    }

    /// How many words there are.
    pub fn len(&self) -> usize
        ensures value { result ≡ length self.now }
        ensures limit { result ≤ WORDS_LIMIT }
    {
        self.items.len()
    }

    /// The n-th word, counted from 0.
    pub fn word(&self, n: usize) -> &[u8]
        requires { n < length self.now }
        ensures value { slice_get self.now n ≡ Some result.now }
    {
        self.items[n].as_slice()
    }
}
