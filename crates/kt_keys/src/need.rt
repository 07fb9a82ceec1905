//! What a command needs of the tables, and what the checks answer.
//! The rule: docs/CHECKS.md, "When a check is made".
ghost use Rattle.std.specs.Prelude.{◌≡◌};
ghost use Rattle.kt_rec.specs.TableNames.{IsTableId};
ghost use Rattle.kt_keys.specs.Refusals.{at_stage, is_loaded, refusal};

use kt_rec::{Table, TableId, TableSet};
use std::alloc::AllocError;

/// What a command needs of the tables.
#[derive(Clone, Copy)]
pub struct Need {
    /// The tables of the command. A check is made where all tables that it names are here.
    pub loaded: TableSet,
    /// The number of samples, at most 1,000; 0 where a stream gives it or it is not used.
    pub samples: u32,
    /// The allocation rule, 0 to 2, by which outputs belong to items (1, 2) or to units of the top level (0).
    pub rule: u32,
    /// Whether losses net of reinsurance are summed too.
    pub net: bool,
}

impl Need {
    /// Whether a table of the base, at stage 0, or of a stage, 1 to 9, is loaded. A stage has only its programme, policy terms
    /// and profiles.
    #[tactic(auto, unfolding(crate::specs::Refusals::is_loaded))]
    pub fn has(&self, stage: u32, table: Table) -> bool
        requires { IsTableId (at_stage stage table) }
        ensures value { result ≡ is_loaded self.now stage table }
    {
        self.loaded.has(TableId { stage, table })
    }
}

/// What a check refuses.
#[derive(Clone, Copy, Drop)]
pub struct Refusal {
    /// The number of the check.
    pub number: u32,
    /// The table that is refused.
    pub table: TableId,
    /// Its first row that is refused, counted from 1; 0 where the table as a whole is refused.
    pub row: u64,
}

impl Refusal {
    /// The refusal of a row, counted from 1, by the check with a number; none where the check is not made or gives no row.
    pub fn of(number: u32, table: TableId, made: bool, row: Option<u64>) -> Option<Refusal>
        ensures value { result ≡ refusal number table made row }
    {
        match row {
            Some(row) if made => Some(Refusal { number, table, row }),
            _ => None,
        }
    }
}

/// Why tables do not make a portfolio.
#[derive(Clone, Copy, Drop)]
pub enum CheckStop {
    /// A check refuses a table.
    Check {
        /// The number of the check.
        number: u32,
        /// The table that is refused.
        table: TableId,
        /// Its first row that is refused, counted from 1; 0 where the table as a whole is refused.
        row: u64,
    },
    /// Want of memory.
    OutOfMemory,
}

impl From<AllocError> for CheckStop {
    ghost use Rattle.kt_keys.specs.declared.need.CheckStop.TheVariants.{OutOfMemory};

    ghost from_gives = { λ _ stop. stop ≡ OutOfMemory };

    fn from(_: AllocError) -> Self {
        CheckStop::OutOfMemory
    }
}
