//! The reader of records of texts: the values of the rows, or the first place that is wrong.
//! The rules: docs/TABLES.md, "Texts of tables", "The first bad place".
ghost use Rattle.std.specs.Prelude.{◌≡◌, ◌+◌, ◌<◌, ◌≤◌, ◌^◌, IsTrue, IfOk, IfErr, Ok, length};
ghost use Rattle.csv.specs.Records.{fields_of};
ghost use Rattle.kt_cells.specs.Texts.{text_value};
ghost use Rattle.kt_cells.specs.Reading.{value_from, not_below, row_values, table_rows, rule_after as rule_behind, floor_after as floor_behind};
ghost use Rattle.kt_cells.specs.Stops.{Tells};

use crate::front_value;
use crate::stop::TableStop;
use crate::values::Values;
use csv::ByteRecord;
use kt_rec::{Cause, Kind};
use kt_text::{Grid, record_field};
use std::alloc::Global;

/// The rule by which the rest of a row is read.
#[inline(always)]
pub(crate) fn rule_after(rule: u64, kind: Kind, value: u64) -> u64
    ensures { result ≡ rule_behind rule kind value }
{
    match kind {
        Kind::Rule => value,
        _ => rule,
    }
}

/// The floor of the row behind a row.
#[inline(always)]
pub(crate) fn floor_after<const N: usize>(ordered: bool, values: &[u64; N]) -> u64
    requires { N < 100 }
    ensures { result ≡ floor_behind ordered values.now }
{
    if ordered {
        values.first().copied().unwrap_or(0)
    } else {
        0
    }
}

// The value of the text of a field, if it is not below the floor.
#[inline(always)]
fn value_of(kind: Kind, text: &[u8], floor: u64) -> Result<u64, Cause>
    ensures { result ≡ value_from text_value floor kind text.now }
{
    let value = front_value::value_of(kind, text)?;
    if value < floor {
        Err(Cause::Order)
    } else {
        Ok(value)
    }
}

/// The values of a record with as many fields as there are columns, as the row with this number. The floor is for the first of
/// them.
#[inline(always)]
#[tactic(auto, using(crate::proofs::ReadingLemmas::row_end))]
pub(crate) fn read_record<const N: usize>(
    fields: &ByteRecord,
    kinds: &[Kind; N],
    number: u64,
    floor: u64,
) -> Result<[u64; N], TableStop>
    requires size { N < 100 }
    requires width { length (fields_of fields.now) ≡ N }
    ensures { result ≡ row_values text_value 0 floor number 1 kinds.now (fields_of fields.now) }
{
    let mut values = [0; N];
    let mut rule = 0;
    let mut least = floor;
    for (column, kind) in kinds.iter().enumerate() {
        match value_of(kind.under(rule), record_field(fields, column), least) {
            Ok(value) => {
                values[column] = value;
                rule = rule_after(rule, *kind, value);
                least = 0;
            }
            Err(cause) => {
                return Err(TableStop::Bad {
                    row: number,
                    column: 1 + column as u32,
                    cause,
                });
            }
        }
    }
    Ok(values)
}

/// The values of a grid of texts. Where rows are ordered, the first value of none is below that of the row before. An
/// error is the first bad place, by row and then by column, or want of memory.
pub fn read_grid<const N: usize>(
    alloc: Global,
    grid: &Grid<N>,
    kinds: &[Kind; N],
    ordered: bool,
) -> Result<Values<N>, TableStop>
    requires { N < 100 }
    ensures value { IfOk result (λ values. table_rows text_value ordered 1 kinds.now 0 1 grid.now ≡ Ok values) }

    ensures refused { IfErr result (Tells (table_rows text_value ordered 1 kinds.now 0 1 grid.now)) }
{
    let mut rows = Vec::new(alloc);
    let mut floor = 0;
    for row in 0..grid.rows() {
        let values = read_record(grid.record(row), kinds, row + 1, floor)?;
        floor = floor_after(ordered, &values);
        rows.push(values)?;
    }
    Ok(Values { rows })
}
