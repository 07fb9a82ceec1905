//! The footprint rows of the events of a round.
//! The rules: docs/TABLES.md, "Footprint rows of a round"; docs/REFUSALS.md, "Order".
ghost use Rattle.std.specs.Prelude.{◌≡◌, ◌≤◌, true, length, MatchResult, OnOk};
ghost use Rattle.kt_block.specs.declared.terms.Terms.{Terms};
ghost use Rattle.kt_keys.specs.Refusals.{is_loaded};
ghost use Rattle.kt_load.specs.Ends.{IsReadStop};
ghost use Rattle.kt_load.specs.EventRows.{HasFootprint, ids_of};
ghost use Rattle.kt_out.specs.InputFiles.{InputsState};
ghost use Rattle.kt_rec.specs.declared.table.Table.TheVariants as table;
ghost use Rattle.kt_chain.specs.Events.{RunInput};
ghost use Rattle.kt_chain.specs.Runs.{AreGivenRows, CountsRead, IsRunOf};

use kt_ends::ToolStop;
use kt_load::{LoadStop, RoundRows};
use kt_out::Inputs;
use kt_tables::Portfolio;

/// How a stop in reading ends the run.
fn read_stop(stop: LoadStop) -> ToolStop
    ensures { (before after : InputsState) → IsReadStop before after stop → CountsRead before after result }
{
    match stop {
        LoadStop::ReadFault => ToolStop::ReadFault,
        _ => ToolStop::NoMemory,
    }
}

/// Holds the events of a round with their rows, as they stand in the footprint's file. An error is a fault that the inputs counted,
/// or want of memory.
pub(crate) fn fill_rows<I: Inputs>(
    given: &mut RoundRows,
    inputs: &mut I,
    portfolio: &Portfolio,
    events: &[u32],
) -> Result<(), ToolStop>
    requires few { length events.now ≤ 64 }
    requires footprint { is_loaded portfolio.now.need 0 table.Footprint ≡ true }
    requires index { is_loaded portfolio.now.need 0 table.FootprintIdx ≡ true }
    requires file { HasFootprint (I.state inputs.old).held portfolio.now.rows.footprint_size }
    ensures events { OnOk result (ids_of given.new ≡ events.now) }
    ensures rows { OnOk result ((terms : Terms) (run : RunInput) → IsRunOf (I.state inputs.old).held terms portfolio.now.rows run → AreGivenRows run given.new) }
    ensures inputs { MatchResult result (λ _. I.state inputs.new ≡ I.state inputs.old) (CountsRead (I.state inputs.old) (I.state inputs.new)) }
{
    match given.fill(inputs, portfolio, events) {
        Ok(()) => Ok(()),
        Err(stop) => Err(read_stop(stop)),
    }
}
