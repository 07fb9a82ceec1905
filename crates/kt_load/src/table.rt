//! Reads the files of tables, one after the other.
//! The rules: docs/REFUSALS.md, "Order".
ghost use Rattle.std.specs.Prelude.{◌≡◌, ◌≤◌, true, IfErr, IfSome, OnOk, Ok, All};
ghost use Rattle.std.specs.List.{filter};
ghost use Rattle.kt_rec.specs.Rows.{rows_of};
ghost use Rattle.kt_rec.specs.TableNames.{IsTableId};
ghost use Rattle.kt_rec.specs.TableSet.{is_in};
ghost use Rattle.kt_load.specs.Ends.{TellsLoad, TellsTables, AfterLoad};
ghost use Rattle.kt_load.specs.FileNames.{file_name_of};
ghost use Rattle.kt_load.specs.Reading.{with_table_file};
ghost use Rattle.kt_load.specs.Reading.{file_limit};
ghost use Rattle.kt_load.specs.Ends.{bytes_wanted};
ghost use Rattle.kt_load.specs.Steps.{KeepsRows, KeepsAll};
ghost use Rattle.kt_load.specs.Typed.{with_size};

use crate::file::read_front;
use crate::naming::file_name;
use crate::stop::LoadStop;
use kt_out::{Absent, Fault, Inputs};
use kt_rec::{Table, TableId, TableSet, Tables};
use kt_schema::read_bin;
use std::alloc::Global;

/// The most bytes of a table's file.
const FILE_LIMIT: u64 = 1_073_741_824;

/// How many bytes of a footprint's file are read here: its header.
const HEADER_WIDTH: u64 = 16;

/// How many bytes of a file of so many are read here: all of them, but of the footprint only its header.
fn wanted(table: Table, size: u64) -> usize
    requires { size ≤ file_limit }
    ensures { result ≡ bytes_wanted table size }
{
    match table {
        Table::Footprint => size.min(HEADER_WIDTH) as usize,
        _ => size as usize,
    }
}

/// Keeps the size of the footprint's file.
fn keep_size(tables: &mut Tables, table: Table, size: u64)
    ensures { rows_of tables.new ≡ with_size (rows_of tables.old) table size }
{
    match table {
        Table::Footprint => tables.footprint_size = size,
        _ => {}
    }
}

/// Reads the file of a table into its rows.
fn read_table<I: Inputs>(
    alloc: Global,
    inputs: &mut I,
    id: TableId,
    tables: &mut Tables,
) -> Result<(), LoadStop>
    requires { IsTableId id }
    ensures ok { OnOk result (IfSome (I.state inputs.old).held (λ files. with_table_file (rows_of tables.old) id (files (file_name_of id)) ≡ Ok (rows_of tables.new))) }
    ensures keeps { OnOk result (KeepsRows id (rows_of tables.old) (rows_of tables.new)) }

    ensures refused { IfErr result (λ stop. IfSome (I.state inputs.old).held (λ files. TellsLoad (with_table_file (rows_of tables.old) id (files (file_name_of id))) stop)) }

    ensures inputs { AfterLoad (I.state inputs.old) (I.state inputs.new) result }
{
    let name = file_name(alloc, id)?;
    let size = match inputs.size(name.as_slice()) {
        Ok(size) => size,
        Err(Absent::Missing) => return Err(LoadStop::Missing { name }),
        Err(Absent::Failed) => return Err(LoadStop::ReadFault),
        Err(Absent::OutOfMemory) => return Err(LoadStop::OutOfMemory),
    };
    if size > FILE_LIMIT {
        return Err(LoadStop::TooLarge { name });
    }
    let bytes = read_front(alloc, inputs, name.as_slice(), wanted(id.table, size))?;
    match read_bin(alloc, id, bytes.as_slice(), tables) {
        Ok(()) => {}
        Err(stop) => return Err(LoadStop::of_table(name, stop)),
    }
    keep_size(tables, id.table, size);
    Ok(())
}

/// Reads the files of those of some tables that are in the set, in order.
pub(crate) fn read_tables<I: Inputs>(
    alloc: Global,
    inputs: &mut I,
    set: &TableSet,
    ids: &[TableId],
    tables: &mut Tables,
) -> Result<(), LoadStop>
    requires { All IsTableId ids.now }
    ensures tells { TellsTables (I.state inputs.old).held (filter (is_in set.now) ids.now) (rows_of tables.old) (rows_of tables.new) result }
    ensures keeps { OnOk result (KeepsAll set.now ids.now (rows_of tables.old) (rows_of tables.new)) }

    ensures inputs { AfterLoad (I.state inputs.old) (I.state inputs.new) result }
{
    for id in ids {
        if !set.has(*id) {
            continue;
        }
        match read_table(alloc, inputs, *id, tables) {
            Ok(()) => {}
            Err(stop) => return Err(stop),
        }
    }
    Ok(())
}
