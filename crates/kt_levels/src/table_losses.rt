//! Records of the shares of a table.
//! The rule: docs/FINANCIAL_MODULE.md, "Insured losses".
ghost use Rattle.std.specs.Prelude.{◌≡◌, ◌<◌, ◌++◌, [], length, All, IfOk, OnErr, OnOk, slice_index};
ghost use Rattle.std.specs.List.{cons_option};
ghost use Rattle.kt_runs.specs.Records.{record_with};
ghost use Rattle.kt_levels.specs.Table.{row_at};
ghost use Rattle.kt_runs.specs.LaneRows.{pairs_by_row};

use crate::table::Table;
use kt_runs::{LossHead, LossLanes, has_loss};
use std::alloc::{AllocError, Global};
use std::marker::Model;

/// A table, and records of its shares: none of them is copied. Contracts see the rows of the table, and the records.
#[derive(Drop)]
pub struct TableLosses {
    table: Table,
    heads: Vec<LossHead>,
}

impl Model for TableLosses {
    ghost use Rattle.kt_levels.specs.TableRun.{TableRun};

    ghost Value = { TableRun };

    ghost use Rattle.kt_levels.specs.TableLosses.{AreTableLosses, table_run_of};

    ghost view = { table_run_of };

    ghost invariant = { AreTableLosses };
}

impl TableLosses {
    /// A table with no record, with room for so many. An error is want of memory.
    pub fn with_room(alloc: Global, table: Table, count: usize) -> Result<TableLosses, AllocError>
        ensures table { IfOk result (λ made. made.table ≡ table) }
        ensures none { IfOk result (λ made. made.records ≡ []) }
    {
        let heads = Vec::with_capacity(alloc, count)?;
        Ok(TableLosses { table, heads })
    }

    /// Puts the record of an event and an id with the shares in a place behind the others, where one is above 0. An error is want of
    /// memory, and nothing changes then.
    pub fn keep(&mut self, event: u32, id: u32, place: usize) -> Result<(), AllocError>
        requires place { All (λ row. place < length row.shares) self.old.table }
        ensures table { self.new.table ≡ self.old.table }
        ensures ok { OnOk result (self.new.records ≡ self.old.records ++ cons_option (record_with event id (pairs_by_row (λ row. slice_index (row_at self.old.table row).shares place) (length self.old.table))) []) }
        ensures unchanged { OnErr result (self.new.records ≡ self.old.records) }
    {
        if !has_loss(self.table.shares(place)) {
            return Ok(());
        }
        self.heads.push(LossHead {
            event,
            id,
            deviation: 0,
            place,
        })?;
        Ok(())
    }

    /// The records, by lanes.
    pub fn into_lanes(self) -> LossLanes
        ensures rows { result.rows ≡ length self.table }
        ensures records { result.records ≡ self.records }
    {
        let rows = self.table.rows();
        let heads = self.heads;
        let lanes = self.table.into_shares();
        LossLanes::of(rows, heads, lanes)
    }
}
