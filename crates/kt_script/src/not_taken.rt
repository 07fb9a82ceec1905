//! That a line is not taken.
//! The rule: docs/PROVING.md, "Tests".

use std::alloc::{AllocError, AllocFailed};
use std::io;

/// A line is none of the language, or no memory was there for it.
#[derive(Clone, Copy)]
pub struct NotTaken;

impl From<AllocError> for NotTaken {
    fn from(_: AllocError) -> Self {
        NotTaken
    }
}

impl<T: Drop> From<AllocFailed<T>> for NotTaken {
    fn from(_: AllocFailed<T>) -> Self {
        NotTaken
    }
}

impl From<io::Error> for NotTaken {
    fn from(_: io::Error) -> Self {
        NotTaken
    }
}
