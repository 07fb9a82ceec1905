//! How a tool ends.
//! The rules: docs/REFUSALS.md, "Statuses".
ghost use Rattle.std.specs.Prelude.{◌≡◌};
ghost use Rattle.kt_ends.specs.declared.tool_stop.ToolStop.TheVariants.{NoMemory};
ghost use Rattle.kt_ends.specs.Stops.{stop_status, end_status, fault_stop};

use crate::status::{Refusal, Status};
use kt_out::Fault;
use std::alloc::AllocError;

/// Why a tool did not come to its end.
#[derive(Drop)]
pub enum ToolStop {
    /// The input is refused.
    Refused(Refusal),
    /// The source or a table could not be read.
    ReadFault,
    /// The sink or an output file could not be written.
    WriteFault,
    /// No memory was there.
    NoMemory,
}

impl From<AllocError> for ToolStop {
    ghost from_gives = { λ _ stop. stop ≡ NoMemory };

    fn from(_: AllocError) -> ToolStop {
        ToolStop::NoMemory
    }
}

/// How a fault in writing ends a tool.
pub fn write_stop(fault: Fault) -> ToolStop
    ensures { result ≡ fault_stop fault }
{
    match fault {
        Fault::Failed => ToolStop::WriteFault,
        Fault::OutOfMemory => ToolStop::NoMemory,
    }
}

/// The status of a run whose tool ended so.
pub fn status_of(end: Result<(), ToolStop>) -> Status
    ensures { result ≡ end_status end }
{
    match end {
        Ok(()) => Status::Done,
        Err(ToolStop::Refused(refusal)) => Status::Refused(refusal),
        Err(ToolStop::ReadFault) => Status::ReadFault,
        Err(ToolStop::WriteFault) => Status::WriteFault,
        Err(ToolStop::NoMemory) => Status::NoMemory,
    }
}
