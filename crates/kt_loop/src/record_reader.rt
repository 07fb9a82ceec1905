//! Reading all records that are whole, and what stays with more bytes behind.
//! The rules: docs/STREAMS.md, "Readers".
ghost use Rattle.std.specs.Prelude.{◌++◌, ℕ, List, IfOk};
ghost use Rattle.kt_stream.specs.declared.kind.Shape.{Shape};
ghost use Rattle.kt_loop.specs.Contents.{Grows};
ghost use Rattle.kt_loop.specs.Reading.{ReadsAll};
ghost use Rattle.kt_loop.specs.RecordStreams.{contents_of};

use kt_stream::{Entry, Next, RecordReader, StreamStop, laws};
use std::alloc::AllocError;

/// Reads all records that are still to be read: what refuses the stream behind them, if anything does. An error is want
/// of memory; the reader stands behind the records that were read before it then, as `advance` leaves it.
pub fn read_records<E: Entry>(
    reader: &mut RecordReader<E>,
) -> Result<Option<StreamStop>, AllocError>
    ensures { IfOk result (λ why. ReadsAll E.form reader.old why reader.new) }
{
    'records: loop {
        match reader.advance()? {
            Next::Record => {}
            Next::Rest => return Ok(None),
            Next::Stop(stop) => return Ok(Some(stop)),
        }
    }
}

/// What was read stays with more bytes behind: a theorem, as a function with an empty body.
pub(crate) fn what_is_read_stays<E: Entry>()
    ensures { (shape : Shape) (bytes : List ℕ) (more : List ℕ) → Grows (contents_of E.form shape bytes) (contents_of E.form shape (bytes ++ more)) }
{
    laws::what_is_read_stays::<E>();
    laws::no_header_means_no_records::<E>();
}
