//! Loads the tables that a command needs, and makes their checks.
//! The rules: docs/REFUSALS.md, "Order".
ghost use Rattle.std.specs.Prelude.{◌≡◌, ◌⊎◌, Option, IfOk, Err, IfSome};
ghost use Rattle.kt_out.specs.InputFiles.{InputsState};
ghost use Rattle.kt_checks.specs.Checks.{answer_of};
ghost use Rattle.kt_keys.specs.declared.need.Refusal.{Refusal};
ghost use Rattle.kt_rec.specs.Rows.{Rows};
ghost use Rattle.kt_load.specs.Ends.{AfterLoad, AfterStop, TellsLoad};
ghost use Rattle.kt_load.specs.Loaded.{TellsLoaded, loaded, unless_refused};

use crate::naming::file_name;
use crate::stop::LoadStop;
use crate::table::read_tables;
use kt_checks::{CheckStop, Need};
use kt_out::Inputs;
use kt_rec::{Tables, load_order};
use kt_tables::Portfolio;
use std::alloc::Global;

impl LoadStop {
    /// The stop for tables that a check refuses.
    fn of_check(alloc: Global, stop: CheckStop) -> LoadStop
        ensures tells { (rows : Rows) (refused : Option Refusal) → (Err stop ≡ answer_of refused) ⊎ (stop ≡ CheckStop.OutOfMemory) → TellsLoad (unless_refused rows refused) result }
        ensures inputs { (before after : InputsState) → after ≡ before → AfterStop before after result }
    {
        match stop {
            CheckStop::OutOfMemory => LoadStop::OutOfMemory,
            CheckStop::Check { number, table, row } => match file_name(alloc, table) {
                Ok(name) => LoadStop::Check { number, name, row },
                Err(_) => LoadStop::OutOfMemory,
            },
        }
    }
}

/// Loads the tables that `need` names and makes their checks.
///
/// An error is, by table in the order of loading, that its file is missing, has more than 2^30 bytes, or its first bad
/// place; then the first check that refuses; or a fault of the inputs, or want of memory. A file is read in the pieces that the
/// inputs give, and its bytes are dropped before the next one is read. Of the footprint only the header and the size are read.
pub fn load<I: Inputs>(alloc: Global, inputs: &mut I, need: Need) -> Result<Portfolio, LoadStop>
    ensures exact { IfSome (I.state inputs.old).held (λ files. TellsLoaded (loaded files need) result) }
    ensures need { IfOk result (λ portfolio. portfolio.need ≡ need) }

    // A fault and a miss come exactly where the inputs counted one.
    ensures inputs { AfterLoad (I.state inputs.old) (I.state inputs.new) result }
{
    let mut tables = Tables::new(alloc);
    match read_tables(alloc, inputs, &need.loaded, &load_order(), &mut tables) {
        Ok(()) => {}
        Err(stop) => return Err(stop),
    }
    match Portfolio::new(alloc, tables, need) {
        Ok(portfolio) => Ok(portfolio),
        Err(stop) => Err(LoadStop::of_check(alloc, stop)),
    }
}
