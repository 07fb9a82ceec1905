//! The summary sets of a generated set.
//! The rules: docs/GENERATOR.md, "Summary sets".
ghost use Rattle.std.specs.Prelude.{◌≡◌, ◌≤◌, ◌++◌, OnOk, IfOk};
ghost use Rattle.kt_cells.specs.Records.{records_bytes};
ghost use Rattle.kt_rec.specs.declared.table.Table.TheVariants.{FmSummaryXref, GulSummaryXref};
ghost use Rattle.kt_schema.specs.Conversions.{bin};
ghost use Rattle.kt_schema.specs.Tables.{kinds_of};
ghost use Rattle.kt_gen.specs.Summaries.{fm_summary_rows, gul_summary_rows, summary_rows};

use crate::draws::Draws;
use crate::groups::{Groups, begin, push_rows, put_plain_groups};
use kt_money::Bytes;
use kt_rec::Table;
use kt_schema::GUL_SUMMARY_XREF;
use std::alloc::{AllocError, Global};

/// Appends the summaries of what belongs to an item, in both sets.
fn push_summaries(out: &mut Bytes, number: u32, item: u32) -> Result<(), AllocError>
    requires { 1 ≤ item }
    ensures { OnOk result (out.new ≡ out.old ++ records_bytes (kinds_of GulSummaryXref) (summary_rows number item)) }
{
    let number = u64::from(number);
    let summary = 1 + (u64::from(item) - 1) % 4;
    push_rows(
        out,
        GUL_SUMMARY_XREF.kinds,
        &[[number, 1, 1], [number, summary, 2]],
    )
}

/// The summaries of items.
#[derive(Clone, Copy)]
struct ItemSummaryGroups;

impl Groups for ItemSummaryGroups {
    ghost use Rattle.kt_rec.specs.declared.table.Table.TheVariants.{GulSummaryXref};
    ghost use Rattle.kt_schema.specs.Tables.{kinds_of};
    ghost use Rattle.kt_gen.specs.Summaries.{summary_rows};

    ghost kinds = { kinds_of GulSummaryXref };

    ghost rows = { λ _ _ item. summary_rows item item };

    ghost before = { λ _ _. 0 };

    fn put(&self, number: u32, _draws: &mut Draws, out: &mut Bytes) -> Result<(), AllocError> {
        push_summaries(out, number, number)
    }
}

/// The summaries of outputs.
#[derive(Clone, Copy)]
struct OutputSummaryGroups;

impl Groups for OutputSummaryGroups {
    ghost use Rattle.kt_rec.specs.declared.table.Table.TheVariants.{FmSummaryXref};
    ghost use Rattle.kt_schema.specs.Tables.{kinds_of};
    ghost use Rattle.kt_gen.specs.Summaries.{item_of, summary_rows};

    ghost kinds = { kinds_of FmSummaryXref };

    ghost rows = { λ _ _ output. summary_rows output (item_of output) };

    ghost before = { λ _ _. 0 };

    fn put(&self, number: u32, _draws: &mut Draws, out: &mut Bytes) -> Result<(), AllocError> {
        push_summaries(out, number, (number - 1) / 2 + 1)
    }
}

/// The file of the summaries of items.
#[tactic(auto, unfolding(crate::specs::Summaries::gul_summary_rows))]
pub(crate) fn gul_summary_file(alloc: Global, items: u32) -> Result<Bytes, AllocError>
    requires { items ≤ 9000 }
    ensures { IfOk result (λ file. file ≡ bin GulSummaryXref 0 (gul_summary_rows items)) }
{
    let mut out = begin(alloc, Table::GulSummaryXref, 0)?;
    put_plain_groups(&ItemSummaryGroups, 1, items, &mut out)?;
    Ok(out)
}

/// The file of the summaries of outputs.
#[tactic(auto, unfolding(crate::specs::Summaries::fm_summary_rows))]
pub(crate) fn fm_summary_file(alloc: Global, items: u32) -> Result<Bytes, AllocError>
    requires { items ≤ 9000 }
    ensures { IfOk result (λ file. file ≡ bin FmSummaryXref 0 (fm_summary_rows items)) }
{
    let mut out = begin(alloc, Table::FmSummaryXref, 0)?;
    put_plain_groups(&OutputSummaryGroups, 1, 2 * items, &mut out)?;
    Ok(out)
}
