//! Losses net of what the layers of a programme take.
//! The rules: docs/COMMANDS.md, "fmcalc"; docs/FINANCIAL_MODULE.md, "Reinsurance".
ghost use Rattle.std.specs.Prelude.{◌≡◌, ◌≤◌, ◌<◌, true, IfOk};
ghost use Rattle.kt_ends.specs.Ending.{StreamToolEnds};
ghost use Rattle.kt_keys.specs.Refusals.{is_loaded};
ghost use Rattle.kt_loop.specs.Running.{stream_uses};
ghost use Rattle.kt_losses.specs.Judged.{judged_outcome};
ghost use Rattle.kt_losses.specs.Tables.{net_table};
ghost use Rattle.kt_rec.specs.declared.table.Table.TheVariants as table;
ghost use Rattle.kt_ri.specs.Stages.{IsStage};
ghost use Rattle.kt_fmtree.specs.Programme.{tree_of};

use crate::heading::put_heading;
use crate::judging::write_losses;
use crate::table::LossTool;
use kt_ends::ToolStop;
use kt_money::Bytes;
use kt_out::{Sink, Source};
use kt_ri::{put_net, stage_of};
use kt_stream::{Head, LossRecord, Placed};
use kt_structure::Structure;
use kt_tables::Portfolio;
use std::alloc::{AllocError, Global};

/// The losses net of what the layers of the base, at 0, or of a stage take, by an allocation rule.
#[derive(Drop)]
struct NetLosses {
    alloc: Global,
    rule: u32,
    stage: u32,
    structure: Structure,
}

impl LossTool for NetLosses {
    ghost use Rattle.std.specs.Prelude.{◌≡◌, ◌≤◌};
    ghost use Rattle.kt_fmtree.specs.Programme.{tree_of};
    ghost use Rattle.kt_ri.specs.Stages.{IsStage};
    ghost use Rattle.kt_losses.specs.Tables.{net_table};

    ghost table = { λ tool. net_table tool.rule tool.stage };

    ghost serves = { λ portfolio tool. ((1 ≤ tool.rule) × (tool.rule ≤ 2)) × IsStage (tree_of portfolio.rows tool.stage) tool.structure };

    fn of_items(&self) -> bool {
        self.stage == 0
    }

    fn put_heading(&self, head: Head, out: &mut Bytes) -> Result<(), AllocError> {
        put_heading(head, out)
    }

    fn put_run(
        &self,
        _portfolio: &Portfolio,
        head: Head,
        run: &[Placed<LossRecord>],
        out: &mut Bytes,
    ) -> Result<(), AllocError> {
        put_net(
            self.alloc,
            &self.structure,
            head.samples,
            self.rule,
            run,
            out,
        )
    }
}

/// The tool of a portfolio.
fn net_losses(
    alloc: Global,
    rule: u32,
    stage: u32,
    portfolio: &Portfolio,
) -> Result<NetLosses, AllocError>
    requires stage { stage < 10 }
    requires programme { is_loaded portfolio.now.need stage table.FmProgramme ≡ true }
    ensures rule { IfOk result (λ tool. tool.rule ≡ rule) }
    ensures stage { IfOk result (λ tool. tool.stage ≡ stage) }
    ensures structure { IfOk result (λ tool. IsStage (tree_of portfolio.now.rows stage) tool.structure) }
{
    let structure = stage_of(alloc, portfolio, stage)?;
    Ok(NetLosses {
        alloc,
        rule,
        stage,
        structure,
    })
}

/// Reads a stream of ground-up losses, for the base, at 0, or of losses of outputs, for a stage from 1 to 9, and writes them net
/// of what its layers take, by a portfolio whose programme of that stage is loaded, by allocation rule 1 or 2. An error
/// is what refuses the stream, a record of it or its samples, a fault of the source or of the sink, or want of memory:
/// where it is refused the output of what came before is written, and any other error leaves some front of the output.
pub fn write_net<S: Source, K: Sink>(
    alloc: Global,
    rule: u32,
    stage: u32,
    portfolio: &Portfolio,
    source: &mut S,
    sink: &mut K,
) -> Result<(), ToolStop>
    requires some { 1 ≤ rule }
    requires rule { rule ≤ 2 }
    requires stage { stage < 10 }
    requires programme { is_loaded portfolio.now.need stage table.FmProgramme ≡ true }
    ensures { StreamToolEnds (stream_uses true) (λ _ bytes. judged_outcome (net_table rule stage) portfolio.now bytes) (S.state source.old) (S.state source.new) (K.state sink.old) (K.state sink.new) result }
{
    let tool = net_losses(alloc, rule, stage, portfolio)?;
    write_losses(alloc, portfolio, tool, source, sink)
}
