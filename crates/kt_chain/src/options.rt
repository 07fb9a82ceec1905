//! The options of a run of all stages.
//! The rules: docs/COMMANDS.md, "chain".

use kt_event::Terms;

/// The options of a run of all stages.
#[derive(Clone, Copy)]
pub struct ChainOptions {
    /// What it computes.
    pub terms: Terms,
    /// The number of workers, from 1 to 16. It changes no output.
    pub workers: u32,
    /// The number of events of a part of a round, from 1 to 4. It changes no output.
    pub batch: u32,
}
