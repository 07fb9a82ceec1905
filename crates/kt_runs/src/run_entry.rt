//! What a record of a run is held in.
//! The rule: docs/STREAMS.md, "Runs".
ghost use Rattle.std.specs.Prelude.{◌≡◌, map};
ghost use Rattle.kt_runs.specs.RunLosses.{event_of};

use kt_stream::{LossRecord, Placed};

/// A record of a run, or what holds one.
pub trait RunEntry {
    ghost use Rattle.kt_stream.specs.declared.entry.LossRecord.{LossRecord};

    /// The record.
    ghost entry_of: { Self → LossRecord };

    /// The record.
    fn entry(&self) -> &LossRecord
        ensures { result.now ≡ entry_of self.now };
}

impl RunEntry for LossRecord {
    ghost entry_of = { λ entry. entry };

    fn entry(&self) -> &LossRecord {
        self
    }
}

impl RunEntry for Placed<LossRecord> {
    ghost entry_of = { λ placed. placed.entry };

    fn entry(&self) -> &LossRecord {
        &self.entry
    }
}

/// The event of the records of a run, 0 where there is none.
pub fn event_of<T: RunEntry>(records: &[T]) -> u32
    ensures value { result ≡ event_of (map T.entry_of records.now) }
{
    match records {
        [] => 0,
        [first, ..] => first.entry().event,
    }
}
