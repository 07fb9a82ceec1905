//! What reading at a place in a stream gives, and what can be wrong with a field.
//! The rules: docs/STREAMS.md, "Records".
ghost use Rattle.std.specs.Prelude.{◌≡◌};
ghost use Rattle.kt_stream.specs.Pairs.{misfit};

use crate::stop::RecordCause;

/// A wrong field of a record: the byte at which it begins, and what is wrong with it.
#[derive(Clone, Copy)]
pub struct Misfit {
    /// The first byte of the field, counted from 0 in the whole stream.
    pub at: u64,
    /// What is wrong with it.
    pub cause: RecordCause,
}

impl Misfit {
    /// A field that begins at a byte and is wrong for this cause.
    #[inline]
    pub(crate) fn new(at: u64, cause: RecordCause) -> Misfit
        ensures { result ≡ misfit at cause }
    {
        Misfit { at, cause }
    }
}

/// A wrong field of a header.
#[derive(Clone, Copy)]
pub enum HeaderFault {
    /// The stream's type is not 101.
    NotProfile,
    /// The stream is of another kind.
    WrongStream {
        /// Its first byte.
        found: u8,
    },
    /// The number of samples is not 1 to 1,000.
    BadSamples {
        /// The number that was found.
        found: u32,
    },
    /// The summary set is not 1 to 9.
    BadSet {
        /// The number that was found.
        found: u32,
    },
}

/// What reading at a place gives: a value, or too few bytes, or the first wrong field.
#[derive(Drop)]
pub enum Read<T, W> {
    /// The value.
    Got(T),
    /// The bytes end before the value does, and nothing before that is wrong.
    Short,
    /// The first wrong field.
    Wrong(W),
}
