//! The insured losses of a stream of ground-up losses.
//! The rules: docs/COMMANDS.md, "fmcalc".
ghost use Rattle.std.specs.Prelude.{◌≡◌, ◌≤◌, true, IfOk};
ghost use Rattle.kt_ends.specs.Ending.{StreamToolEnds};
ghost use Rattle.kt_alloc.specs.Index.{AreIndexed};
ghost use Rattle.kt_keys.specs.Refusals.{is_loaded};
ghost use Rattle.kt_loop.specs.Running.{stream_uses};
ghost use Rattle.kt_losses.specs.Judged.{judged_outcome};
ghost use Rattle.kt_losses.specs.Tables.{insured_table};
ghost use Rattle.kt_rec.specs.declared.table.Table.TheVariants as table;
ghost use Rattle.kt_structure.specs.Structure.{IsStructure, kept_by};
ghost use Rattle.kt_fmtree.specs.Programme.{tree_of};

use crate::heading::put_heading;
use crate::judging::write_losses;
use crate::table::LossTool;
use kt_alloc::{OutputIndex, put_insured};
use kt_ends::ToolStop;
use kt_money::Bytes;
use kt_out::{Sink, Source};
use kt_stream::{Head, LossRecord, Placed};
use kt_structure::Structure;
use kt_tables::Portfolio;
use std::alloc::{AllocError, Global};

/// The insured losses by the structure of the base and the outputs, by an allocation rule.
#[derive(Drop)]
struct InsuredLosses {
    alloc: Global,
    rule: u32,
    structure: Structure,
    outputs: OutputIndex,
}

impl LossTool for InsuredLosses {
    ghost use Rattle.std.specs.Prelude.{◌≡◌, ◌≤◌};
    ghost use Rattle.kt_fmtree.specs.Programme.{tree_of};
    ghost use Rattle.kt_structure.specs.Structure.{IsStructure, kept_by};
    ghost use Rattle.kt_alloc.specs.Index.{AreIndexed};
    ghost use Rattle.kt_losses.specs.Tables.{insured_table};

    ghost table = { λ tool. insured_table tool.rule };

    ghost serves = { λ portfolio tool. (tool.rule ≤ 2) × (IsStructure (tree_of portfolio.rows 0) (kept_by tool.structure) × AreIndexed portfolio.rows.fm_xref tool.outputs) };

    fn of_items(&self) -> bool {
        true
    }

    fn put_heading(&self, head: Head, out: &mut Bytes) -> Result<(), AllocError> {
        put_heading(head, out)
    }

    fn put_run(
        &self,
        portfolio: &Portfolio,
        head: Head,
        run: &[Placed<LossRecord>],
        out: &mut Bytes,
    ) -> Result<(), AllocError> {
        put_insured(
            self.alloc,
            portfolio,
            &self.structure,
            &self.outputs,
            head.samples,
            self.rule,
            run,
            out,
        )
    }
}

/// The tool of a portfolio.
fn insured_losses(
    alloc: Global,
    rule: u32,
    portfolio: &Portfolio,
) -> Result<InsuredLosses, AllocError>
    requires programme { is_loaded portfolio.now.need 0 table.FmProgramme ≡ true }
    ensures rule { IfOk result (λ tool. tool.rule ≡ rule) }
    ensures structure { IfOk result (λ tool. IsStructure (tree_of portfolio.now.rows 0) (kept_by tool.structure)) }
    ensures outputs { IfOk result (λ tool. AreIndexed portfolio.now.rows.fm_xref tool.outputs) }
{
    let structure = Structure::new(alloc, portfolio, 0)?;
    let outputs = OutputIndex::new(alloc, portfolio)?;
    Ok(InsuredLosses {
        alloc,
        rule,
        structure,
        outputs,
    })
}

/// Reads a stream of ground-up losses and writes their insured losses by a portfolio whose programme is loaded, by an allocation
/// rule from 0 to 2. An error is what refuses the stream, a record of it or its samples, a fault of the source or of
/// the sink, or want of memory: where it is refused the output of what came before is written, and any other error
/// leaves some front of the output.
pub fn write_insured<S: Source, K: Sink>(
    alloc: Global,
    rule: u32,
    portfolio: &Portfolio,
    source: &mut S,
    sink: &mut K,
) -> Result<(), ToolStop>
    requires rule { rule ≤ 2 }
    requires programme { is_loaded portfolio.now.need 0 table.FmProgramme ≡ true }
    ensures { StreamToolEnds (stream_uses true) (λ _ bytes. judged_outcome (insured_table rule) portfolio.now bytes) (S.state source.old) (S.state source.new) (K.state sink.old) (K.state sink.new) result }
{
    let tool = insured_losses(alloc, rule, portfolio)?;
    write_losses(alloc, portfolio, tool, source, sink)
}
