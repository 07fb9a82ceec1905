//! How a file that is not taken ends the tool.
//! The rules: docs/COMMANDS.md, "kat"; docs/REFUSALS.md, "Order".
ghost use Rattle.std.specs.Prelude.{◌≡◌};
ghost use Rattle.kt_kat.specs.Stops.{absent_stop as stop_of_absent, file_stop as stop_in_file, size_within as within, unread_stop as stop_of_fault};

use kt_ends::{Refusal, ToolStop};
use kt_out::{Absent, Fault};
use kt_rec::Name;
use kt_stream::StreamStop;

/// The most bytes of a file.
const FILE_LIMIT: u64 = 1_073_741_824;

/// How the tool ends where the size of a file of this name was not told.
pub(crate) fn absent_stop(name: Name, why: Absent) -> ToolStop
    ensures { result ≡ stop_of_absent name why }
{
    match why {
        Absent::Missing => ToolStop::Refused(Refusal::Missing { name }),
        Absent::Failed => ToolStop::ReadFault,
        Absent::OutOfMemory => ToolStop::NoMemory,
    }
}

/// The size of a file of this name, which is refused above 2^30 bytes.
pub(crate) fn size_within(name: Name, size: u64) -> Result<u64, ToolStop>
    ensures { result ≡ within name size }
{
    if size <= FILE_LIMIT {
        Ok(size)
    } else {
        Err(ToolStop::Refused(Refusal::TooLarge { name }))
    }
}

/// How the tool ends where the bytes of a file were not read.
pub(crate) fn unread_stop(fault: Fault) -> ToolStop
    ensures { result ≡ stop_of_fault fault }
{
    match fault {
        Fault::Failed => ToolStop::ReadFault,
        Fault::OutOfMemory => ToolStop::NoMemory,
    }
}

/// How the tool ends where the stream of the file of this number is refused.
pub(crate) fn file_stop(number: u32, stop: StreamStop) -> ToolStop
    ensures { result ≡ stop_in_file number stop }
{
    ToolStop::Refused(Refusal::File { file: number, stop })
}
