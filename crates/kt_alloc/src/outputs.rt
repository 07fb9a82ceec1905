//! The records of outputs, from the rows of all sidx.
//! The rule: docs/FINANCIAL_MODULE.md, "Insured losses".
ghost use Rattle.std.specs.Prelude.{◌≡◌, ◌<◌, ◌++◌, length, All, IfOk, OnErr, OnOk};
ghost use Rattle.std.specs.List.{AllByRecursion, filter_map, flat_map};
ghost use Rattle.kt_stream.specs.Losses.{loss_bytes};
ghost use Rattle.kt_alloc.specs.Table.{record_in};

use crate::outlets::Outlet;
use kt_levels::{Table, TableLosses};
use kt_money::Bytes;
use kt_runs::LossLanes;
use std::alloc::{AllocError, Global};

/// The losses of outputs, in their order.
pub(crate) fn lanes_of(
    alloc: Global,
    event: u32,
    table: Table,
    outlets: &[Outlet],
) -> Result<LossLanes, AllocError>
    requires places { AllByRecursion (λ outlet. All (λ row. outlet.place < length row.shares) table) outlets.now }
    ensures rows { IfOk result (λ made. made.rows ≡ length table) }
    ensures value { IfOk result (λ made. made.records ≡ filter_map (record_in event table) outlets.now) }
{
    let mut made = TableLosses::with_room(alloc, table, outlets.len())?;
    for outlet in outlets {
        made.keep(event, outlet.id, outlet.place)?;
    }
    Ok(made.into_lanes())
}

/// Appends the records of outputs, in their order, as they stand in a stream. An error is want of memory, and nothing is appended
/// then.
pub(crate) fn put_records(
    alloc: Global,
    event: u32,
    table: &Table,
    outlets: &[Outlet],
    out: &mut Bytes,
) -> Result<(), AllocError>
    requires places { AllByRecursion (λ outlet. All (λ row. outlet.place < length row.shares) table.now) outlets.now }
    ensures ok { OnOk result (out.new ≡ out.old ++ flat_map loss_bytes (filter_map (record_in event table.now) outlets.now)) }
    ensures unchanged { OnErr result (out.new ≡ out.old) }
{
    let mut room = table.room(alloc)?;
    let whole = out.len();
    for outlet in outlets {
        if let Err(stop) = table.put(event, outlet.id, outlet.place, &mut room, out) {
            out.truncate(whole);
            return Err(stop);
        }
    }
    Ok(())
}
