//! Tables that are made group by group: rows that belong to one item, one event or the like.
//! The rule: docs/GENERATOR.md, "Files".
ghost use Rattle.std.specs.Prelude.{◌≡◌, ◌<◌, ◌≤◌, ◌+◌, ◌++◌, ℕ, IfOk, OnOk};
ghost use Rattle.std.specs.List.{flat_map, range_with_len};
ghost use Rattle.kt_cells.specs.Records.{records_bytes};
ghost use Rattle.kt_rec.specs.TableNames.{number_of};
ghost use Rattle.kt_schema.specs.Conversions.{header_part};
ghost use Rattle.kt_schema.specs.Tables.{has_header};

use crate::draws::Draws;
use kt_cells::{Kind, push_header, push_record};
use kt_money::Bytes;
use kt_rec::{Table, describe};
use std::alloc::{AllocError, Global};

/// The rows of a table, or of a part of one, group by group.
pub(crate) trait Groups {
    ghost use Rattle.std.specs.Prelude.{List};
    ghost use Rattle.kt_rec.specs.declared.kind.Kind.{Kind};

    // The kinds of the columns of a record.
    ghost kinds: { List Kind };

    // The rows of the group with a number, by the seed of the draws.
    ghost rows: { Self → ℕ → ℕ → List (List ℕ) };

    // How many draws are made before the group with a number.
    ghost before: { Self → ℕ → ℕ };

    /// Appends the records of the group with a number. An error is want of memory.
    fn put(&self, number: u32, draws: &mut Draws, out: &mut Bytes) -> Result<(), AllocError>
        requires low { 1 ≤ number }
        requires high { number < 20000 }
        requires few { before self.now number < 900000 }
        requires at { draws.old.made ≡ before self.now number }
        ensures ok { OnOk result (out.new ≡ out.old ++ records_bytes kinds (rows self.now draws.old.seed number)) }
        ensures at { OnOk result (draws.new.made ≡ before self.now (number + 1)) }

        ensures seed { OnOk result (draws.new.seed ≡ draws.old.seed) };
}

/// Appends the records of so many groups, from the one with a number on. An error is want of memory.
pub(crate) fn put_groups<G: Groups>(
    groups: &G,
    first: u32,
    count: u32,
    draws: &mut Draws,
    out: &mut Bytes,
) -> Result<(), AllocError>
    requires low { 1 ≤ first }
    requires high { first + count ≤ 20000 }
    requires few { (number : ℕ) → number < 20000 → G.before groups.now number < 900000 }
    requires at { draws.old.made ≡ G.before groups.now first }
    ensures ok { OnOk result (out.new ≡ out.old ++ records_bytes G.kinds (flat_map (G.rows groups.now draws.old.seed) (range_with_len first count))) }
    ensures at { OnOk result (draws.new.made ≡ G.before groups.now (first + count)) }

    ensures seed { OnOk result (draws.new.seed ≡ draws.old.seed) }
{
    for number in first..first + count {
        groups.put(number, draws, out)?;
    }
    Ok(())
}

/// The same for groups that make no draw.
pub(crate) fn put_plain_groups<G: Groups>(
    groups: &G,
    first: u32,
    count: u32,
    out: &mut Bytes,
) -> Result<(), AllocError>
    requires low { 1 ≤ first }
    requires high { first + count ≤ 20000 }
    requires plain { (number : ℕ) → G.before groups.now number ≡ 0 }
    ensures { OnOk result (out.new ≡ out.old ++ records_bytes G.kinds (flat_map (G.rows groups.now 0) (range_with_len first count))) }
{
    let mut draws = Draws::new(0);
    put_groups(groups, first, count, &mut draws, out)
}

/// Appends rows as records. An error is want of memory.
pub(crate) fn push_rows<const N: usize>(
    out: &mut Bytes,
    kinds: &[Kind; N],
    rows: &[[u64; N]],
) -> Result<(), AllocError>
    requires { N < 100 }
    ensures { OnOk result (out.new ≡ out.old ++ records_bytes kinds.now rows.now) }
{
    for row in rows {
        push_record(out, kinds, row)?;
    }
    Ok(())
}

/// The file of a table, with its header where it has one, and no row yet. An error is want of memory.
pub(crate) fn begin(alloc: Global, table: Table, extra: u32) -> Result<Bytes, AllocError>
    ensures { IfOk result (λ out. out ≡ header_part (has_header table) (number_of table) extra) }
{
    let mut out = Bytes::new(alloc);
    if describe(table).header {
        push_header(&mut out, table.number(), extra)?;
    }
    Ok(out)
}
