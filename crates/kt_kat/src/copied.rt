//! The header and the records of a file that is a stream, written as they stand in it.
//! The rules: docs/COMMANDS.md, "kat".
ghost use Rattle.std.specs.Prelude.{◌≡◌, []};
ghost use Rattle.kt_kat.specs.Copied.{Written, Opens, CopiesRecords};
ghost use Rattle.kt_kat.specs.Joining.{same_head};

use crate::stops::file_stop;
use kt_ends::{Refusal, ToolStop, write_stop};
use kt_loop::read_records;
use kt_money::Bytes;
use kt_out::{Sink, write_all};
use kt_stream::{Entry, Head, RecordReader, StreamKind, put_head};
use std::alloc::Global;

/// Writes a text.
fn write<K: Sink>(sink: &mut K, text: &[u8]) -> Result<(), ToolStop>
    ensures { Written (K.state sink.old) (K.state sink.new) text.now result }
{
    match write_all(sink, text) {
        Ok(()) => Ok(()),
        Err(fault) => Err(write_stop(fault)),
    }
}

/// Whether two headers are the same.
fn is_same(one: Head, other: Head) -> bool
    ensures { result ≡ same_head one other }
{
    one.samples == other.samples && one.set == other.set
}

/// Writes a header where no file was before, else refuses one that is not that of the first file.
pub(crate) fn open<K: Sink>(
    alloc: Global,
    kind: StreamKind,
    first: Option<Head>,
    number: u32,
    head: Head,
    sink: &mut K,
) -> Result<(), ToolStop>
    ensures { Opens kind first number head (K.state sink.old) (K.state sink.new) result }
{
    let Some(first) = first else {
        let mut text = Bytes::new(alloc);
        put_head(&mut text, kind, head)?;
        return write(sink, text.as_slice());
    };
    if is_same(first, head) {
        Ok(())
    } else {
        Err(ToolStop::Refused(Refusal::HeaderDiffers { file: number }))
    }
}

/// Reads all whole records and writes their bytes; what refuses the stream behind them refuses the file of this number.
pub(crate) fn copy_records<E: Entry, K: Sink>(
    number: u32,
    reader: &mut RecordReader<E>,
    sink: &mut K,
) -> Result<(), ToolStop>
    requires { reader.old.passed ≡ [] }
    ensures { CopiesRecords E.form number reader.old (K.state sink.old) (K.state sink.new) reader.new result }
{
    let Ok(stop) = read_records(reader) else {
        return Err(ToolStop::NoMemory);
    };
    if let Err(why) = write(sink, reader.passed()) {
        return Err(why);
    }
    match stop {
        None => Ok(()),
        Some(stop) => Err(file_stop(number, stop)),
    }
}
