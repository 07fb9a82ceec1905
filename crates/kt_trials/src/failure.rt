//! That a trial could not be made.
//! The rule: docs/PROVING.md, "Tests".

use std::alloc::{AllocError, AllocFailed};
use std::io;

/// A table could not be made, no memory was there, or nothing could be printed.
#[derive(Clone, Copy)]
pub(crate) struct Failure;

impl From<AllocError> for Failure {
    fn from(_: AllocError) -> Self {
        Failure
    }
}

impl<T: Drop> From<AllocFailed<T>> for Failure {
    fn from(_: AllocFailed<T>) -> Self {
        Failure
    }
}

impl From<io::Error> for Failure {
    fn from(_: io::Error) -> Self {
        Failure
    }
}
