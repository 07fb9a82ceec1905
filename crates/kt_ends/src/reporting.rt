//! The report of a refused run on standard error.
//! The rules: docs/REFUSALS.md, "Texts".
ghost use Rattle.std.specs.Prelude.{◌≡◌};
ghost use Rattle.kt_ends.specs.Line.{IsRefused, status_line};
ghost use Rattle.kt_ends.specs.Report.{Reported};

use crate::line::line_of;
use crate::status::Status;
use kt_out::{Fault, Sink, write_all};
use std::alloc::Global;

/// Writes the line of a refused run. A fault of `err` changes nothing; its want of memory is that
/// of the run.
fn say_line<E: Sink>(status: Status, text: &[u8], err: &mut E) -> Status
    requires refused { IsRefused status }
    requires text { text.now ≡ status_line status }
    ensures exact { Reported status result (E.state err.old) (E.state err.new) }
{
    match write_all(err, text) {
        Ok(()) => status,
        Err(Fault::Failed) => status,
        Err(Fault::OutOfMemory) => Status::NoMemory,
    }
}

/// Reports a status: a refused run writes its line to `err`, and any other writes nothing. The answer is the status, also
/// where `err` fails; or want of memory, where the line or `err` finds none.
pub fn report<E: Sink>(alloc: Global, status: Status, err: &mut E) -> Status
    ensures exact { Reported status result (E.state err.old) (E.state err.new) }
{
    match status {
        Status::Words(_) | Status::Refused(_) => match line_of(alloc, &status) {
            Ok(text) => say_line(status, text.as_slice(), err),
            Err(_) => Status::NoMemory,
        },
        _ => status,
    }
}
