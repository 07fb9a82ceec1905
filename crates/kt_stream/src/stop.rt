//! Why a stream is refused.
//! The rules: docs/STREAMS.md, "What is refused".
ghost use Rattle.std.specs.Prelude.{◌≡◌};
ghost use Rattle.kt_stream.specs.Stop.{header_stop, record_stop};

use crate::read::{HeaderFault, Misfit};

/// What is wrong with a field of a record.
#[derive(Clone, Copy)]
pub enum RecordCause {
    /// An id is not 1 to 2,147,483,647.
    Id,
    /// An exposure is above 10^14 cents.
    Exposure,
    /// The first sidx of a record is 0.
    Empty,
    /// A sidx is none that the record may have here.
    Sidx,
    /// A loss is 0, or above 10^16 cents.
    Loss,
    /// The loss beside sidx 0 is not 0.
    End,
    /// A number of bins is 0, above 1,000, or above that of the damage bins.
    Bins,
    /// A probability is below the one before, or too high, or the last is not above the one before.
    Prob,
    /// A mean is above 1,000,000.
    Mean,
}

/// Why a stream is refused.
#[derive(Clone, Copy)]
pub enum StreamStop {
    /// The type in bytes 1 to 3 is not 101.
    NotProfile,
    /// The stream is of another kind.
    WrongStream {
        /// Its first byte.
        found: u8,
    },
    /// The number of samples in the header is not 1 to 1,000.
    BadSamples {
        /// The number that was found.
        found: u32,
    },
    /// The summary set in the header is not 1 to 9.
    BadSet {
        /// The number that was found.
        found: u32,
    },
    /// A field of a record is wrong.
    BadRecord {
        /// The first byte of the field, counted from 0 in the whole stream.
        byte: u64,
        /// What is wrong with it.
        cause: RecordCause,
    },
    /// The stream ends inside its header or a record.
    Cut {
        /// The length of the stream in bytes.
        byte: u64,
    },
    /// More than 2^40 bytes came.
    TooLong,
}

/// How a wrong field of the header is refused.
pub(crate) fn of_header(fault: HeaderFault) -> StreamStop
    ensures { result ≡ header_stop fault }
{
    match fault {
        HeaderFault::NotProfile => StreamStop::NotProfile,
        HeaderFault::WrongStream { found } => StreamStop::WrongStream { found },
        HeaderFault::BadSamples { found } => StreamStop::BadSamples { found },
        HeaderFault::BadSet { found } => StreamStop::BadSet { found },
    }
}

/// How a wrong field of a record is refused.
pub(crate) fn of_record(misfit: Misfit) -> StreamStop
    ensures { result ≡ record_stop misfit }
{
    StreamStop::BadRecord {
        byte: misfit.at,
        cause: misfit.cause,
    }
}
