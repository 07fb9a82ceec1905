//! What was made beforehand for the elements of a list.
//! The rule: docs/ARCHITECTURE.md, "A run of all stages".
ghost use Rattle.std.specs.Prelude.{◌≡◌, ◌++◌, ◌∷◌, [], OnOk, drop, slice_index_or};

use std::alloc::{AllocError, Global};
use std::collections::VecDeque;
use std::marker::Model;

/// What was made for the elements of a list, in their order: for those behind the last nothing was. Contracts see what is left.
#[derive(Drop)]
pub(crate) struct ReadyList<T> {
    left: VecDeque<T>,
}

impl<T> Model for ReadyList<T> {
    ghost use Rattle.std.specs.Prelude.{List};

    ghost Value = { List T };

    ghost view = { λ list. list.left.items };
}

impl<T: Drop> ReadyList<T> {
    /// Nothing was made. Asks for no memory.
    pub(crate) fn none(alloc: Global) -> ReadyList<T>
        ensures { result ≡ [] }
    {
        ReadyList {
            left: VecDeque::new(alloc),
        }
    }

    /// Appends what was made for the next element. Refused only for want of memory.
    pub(crate) fn push(&mut self, item: T) -> Result<(), AllocError>
        ensures { OnOk result (self.new ≡ self.old ++ item ∷ []) }
    {
        self.left.push_back(item)?;
        Ok(())
    }

    /// Takes what was made for the next element, or this other where nothing was.
    pub(crate) fn next(&mut self, other: T) -> T
        ensures value { result ≡ slice_index_or self.old 0 other }
        ensures rest { self.new ≡ drop 1 self.old }
    {
        match self.left.pop_front() {
            Some(item) => item,
            None => other,
        }
    }
}
