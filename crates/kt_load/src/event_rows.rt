//! The footprint rows of one event.
//! The rules: docs/TABLES.md, "Footprint rows of an event".
ghost use Rattle.std.specs.Prelude.{◌≡◌, true, IfOk, IfSome, MatchResult};
ghost use Rattle.kt_keys.specs.Refusals.{is_loaded};
ghost use Rattle.kt_load.specs.Ends.{IsReadStop};
ghost use Rattle.kt_load.specs.EventRows.{HasFootprint, event_rows, footprint_name};
ghost use Rattle.kt_rec.specs.declared.table.Table.TheVariants as table;

use crate::spans::{place_in_file, read_span};
use crate::stop::LoadStop;
use kt_out::Inputs;
use kt_rec::FootRow;
use kt_tables::Portfolio;
use std::alloc::Global;

/// The footprint rows of an event, as they stand in the footprint's file; none where the index has no such event. The
/// footprint and its index must be loaded, and the file be as long as it was then. Refused only for a fault that the inputs
/// counted, and for want of memory. Rows are not judged here.
pub fn foot_rows<I: Inputs>(
    alloc: Global,
    inputs: &mut I,
    portfolio: &Portfolio,
    event: u32,
) -> Result<Vec<FootRow>, LoadStop>
    requires footprint { is_loaded portfolio.now.need 0 table.Footprint ≡ true }
    requires index { is_loaded portfolio.now.need 0 table.FootprintIdx ≡ true }
    requires file { HasFootprint (I.state inputs.old).held portfolio.now.rows.footprint_size }
    ensures value { IfOk result (λ rows. IfSome (I.state inputs.old).held (λ files. IfSome (files footprint_name) (λ bytes. rows.items ≡ event_rows portfolio.now.rows bytes event))) }

    ensures inputs { MatchResult result (λ _. I.state inputs.new ≡ I.state inputs.old) (IsReadStop (I.state inputs.old) (I.state inputs.new)) }
{
    let mut rows = Vec::new(alloc);
    let Some(place) = place_in_file(portfolio, event) else {
        return Ok(rows);
    };
    read_span(alloc, inputs, portfolio, place, &mut rows)?;
    Ok(rows)
}
