//! By what the records of a stream are split into runs.
//! The rules: docs/STREAMS.md, "Runs".
ghost use Rattle.std.specs.Prelude.{◌≡◌};
ghost use Rattle.kt_loop.specs.Runs.{goes_on};

use kt_stream::{Cdf, LossRecord, SummaryRecord};

/// The event of a record and its id: one number, or two, of which the first counts most.
#[derive(Clone, Copy)]
pub struct RunKey {
    /// The event's id.
    pub event: u32,
    /// The id, or its first number.
    pub id: u32,
    /// The second number of the id, 0 where it has one alone.
    pub second: u32,
}

/// A record that stands in a run.
pub trait RunRecord {
    ghost use Rattle.kt_loop.specs.declared.run_key.RunKey.{RunKey};

    /// Its event and its id.
    ghost key: { Self → RunKey };

    /// Its event and its id.
    fn run_key(&self) -> RunKey
        ensures { result ≡ key self.now };
}

impl RunRecord for Cdf {
    ghost use Rattle.kt_loop.specs.Runs.{cdf_key};

    ghost key = { cdf_key };

    fn run_key(&self) -> RunKey {
        RunKey {
            event: self.event,
            id: self.areaperil,
            second: self.vulnerability,
        }
    }
}

impl RunRecord for LossRecord {
    ghost use Rattle.kt_loop.specs.Runs.{loss_key};

    ghost key = { loss_key };

    fn run_key(&self) -> RunKey {
        RunKey {
            event: self.event,
            id: self.id,
            second: 0,
        }
    }
}

impl RunRecord for SummaryRecord {
    ghost use Rattle.kt_loop.specs.Runs.{summary_key};

    ghost key = { summary_key };

    fn run_key(&self) -> RunKey {
        RunKey {
            event: self.event,
            id: self.summary,
            second: 0,
        }
    }
}

/// Whether a record goes on the run of the record before it: it has the same event, and its id is greater.
pub(crate) fn goes_on_run(before: RunKey, next: RunKey) -> bool
    ensures { result ≡ goes_on before next }
{
    before.event == next.event
        && (before.id < next.id || (before.id == next.id && before.second < next.second))
}
