//! The insured losses of a run, and the sums of its layers.
//! The rule: docs/FINANCIAL_MODULE.md, "Insured losses".
ghost use Rattle.std.specs.Prelude.{◌≡◌, ◌+◌, ◌≤◌, ◌++◌, List, map, All, IfOk, OnErr, OnOk};
ghost use Rattle.std.specs.List.{flat_map};
ghost use Rattle.kt_stream.specs.Losses.{IsLoss, loss_bytes};
ghost use Rattle.kt_rec.specs.declared.financial.FmXref.{FmXref};
ghost use Rattle.kt_runs.specs.RunLosses.{AreWithin};
ghost use Rattle.kt_fmtree.specs.Programme.{tree_of};
ghost use Rattle.kt_fmtree.specs.Struck.{struck};
ghost use Rattle.kt_fmtree.specs.Tree.{Tree};
ghost use Rattle.kt_fmtree.specs.Parts.{IsProgramme};
ghost use Rattle.kt_structure.specs.Structure.{HasStructure, IsStructure, kept_by};
ghost use Rattle.kt_alloc.specs.Index.{AreIndexed};
ghost use Rattle.kt_alloc.specs.Insured.{insured_records, layer_sums};
ghost use Rattle.kt_alloc.specs.Layout.{IsLayout};

use crate::index::OutputIndex;
use crate::layout::Layout;
use crate::made::{Insured, InsuredLanes};
use crate::outputs::{lanes_of, put_records};
use crate::sums::sums_of;
use kt_fmtree::Programme;
use kt_levels::{table_of, table_of_run};
use kt_money::Bytes;
use kt_runs::{Listed, RunEntry, RunLosses, event_of, event_of_run, ids_of};
use kt_structure::Structure;
use kt_tables::Portfolio;
use std::alloc::{AllocError, Global};

/// The programme of the units that ids with losses come to, and how its layers are laid out to outputs by an allocation rule from 0 to 2.
/// An error is want of memory.
fn programme_for(
    alloc: Global,
    structure: &Structure,
    outputs: &OutputIndex,
    rule: u32,
    ids: &[u32],
) -> Result<(Programme, Layout), AllocError>
    requires structure { HasStructure (kept_by structure.now) }
    ensures programme { IfOk result (λ made. (tree : Tree) → IsStructure tree (kept_by structure.now) → IsProgramme (struck tree ids.now) made.0) }
    ensures rule { IfOk result (λ made. made.1.rule ≡ rule) }
    ensures layout { IfOk result (λ made. (tree : Tree) (all : List FmXref) → IsProgramme tree made.0 → AreIndexed all outputs.now → IsLayout tree all made.0 made.1) }
{
    let programme = structure.programme(alloc, ids)?;
    let layout = Layout::new(alloc, outputs, &programme, rule)?;
    Ok((programme, layout))
}

/// The insured losses of a run, by a programme of the ids that have losses.
fn lanes_by<R: RunLosses>(
    alloc: Global,
    portfolio: &Portfolio,
    programme: &Programme,
    layout: &Layout,
    samples: u32,
    run: &R,
) -> Result<InsuredLanes, AllocError>
    requires samples { samples ≤ 1000 }
    requires rule { layout.now.rule ≤ 2 }
    requires layout { (tree : Tree) → IsProgramme tree programme.now → IsLayout tree portfolio.now.rows.fm_xref programme.now layout.now }
    requires rows { R.has_rows samples run.now }
    requires records { All (IsLoss samples) (R.records_of run.now) }
    requires within { AreWithin (R.records_of run.now) }
    ensures rows { IfOk result (λ made. made.losses.rows ≡ samples + 1) }
    ensures records { IfOk result (λ made. (tree : Tree) → IsProgramme tree programme.now → made.losses.records ≡ insured_records tree layout.now.rule samples portfolio.now.rows.fm_xref (R.records_of run.now)) }
    ensures layers { IfOk result (λ made. (tree : Tree) → IsProgramme tree programme.now → made.layers ≡ layer_sums tree layout.now.rule samples (R.records_of run.now)) }
{
    programme.is_of_a_tree();
    let event = event_of_run(run);
    let layers = layout.layers();
    let table = table_of_run(alloc, programme, samples, layout.rule(), layers, run)?;
    let sums = sums_of(alloc, event, &table, layers)?;
    let losses = lanes_of(alloc, event, table, layout.outlets())?;
    Ok(InsuredLanes {
        losses,
        layers: sums,
    })
}

/// The insured losses of one run, by lanes, and the sums of the layers: those of `insured`, which says what must hold. An
/// error is want of memory.
pub fn insured_lanes<R: RunLosses>(
    alloc: Global,
    portfolio: &Portfolio,
    structure: &Structure,
    outputs: &OutputIndex,
    samples: u32,
    rule: u32,
    run: &R,
) -> Result<InsuredLanes, AllocError>
    requires samples { samples ≤ 1000 }
    requires rule { rule ≤ 2 }
    requires structure { IsStructure (tree_of portfolio.now.rows 0) (kept_by structure.now) }
    requires outputs { AreIndexed portfolio.now.rows.fm_xref outputs.now }
    requires rows { R.has_rows samples run.now }
    requires records { All (IsLoss samples) (R.records_of run.now) }
    requires within { AreWithin (R.records_of run.now) }
    ensures rows { IfOk result (λ made. made.losses.rows ≡ samples + 1) }
    ensures records { IfOk result (λ made. made.losses.records ≡ insured_records (tree_of portfolio.now.rows 0) rule samples portfolio.now.rows.fm_xref (R.records_of run.now)) }
    ensures layers { IfOk result (λ made. made.layers ≡ layer_sums (tree_of portfolio.now.rows 0) rule samples (R.records_of run.now)) }
    ensures conserved { IfOk result (λ made. All (λ entry. entry.allocated ≡ entry.policy) made.layers) }
    ensures good { IfOk result (λ made. All (IsLoss samples) made.losses.records) }
{
    portfolio.is_valid();
    let ids = run.id_list(alloc)?;
    let (programme, layout) = programme_for(alloc, structure, outputs, rule, &ids)?;
    lanes_by(alloc, portfolio, &programme, &layout, samples, run)
}

/// The insured losses of the records of one run, by an allocation rule from 0 to 2, and the sums of the layers over the samples.
/// The records of the outputs stand by rising output; an output without a loss at the mean and at each sample has none. An id
/// that the programme does not name takes no part, and neither does sidx -2. The structure is that of the portfolio's base, the
/// outputs are the portfolio's, and the losses of the run add to at most 10^16 cents at each sidx. An error is want of memory.
pub fn insured<T: RunEntry>(
    alloc: Global,
    portfolio: &Portfolio,
    structure: &Structure,
    outputs: &OutputIndex,
    samples: u32,
    rule: u32,
    records: &[T],
) -> Result<Insured, AllocError>
    requires samples { samples ≤ 1000 }
    requires rule { rule ≤ 2 }
    requires structure { IsStructure (tree_of portfolio.now.rows 0) (kept_by structure.now) }
    requires outputs { AreIndexed portfolio.now.rows.fm_xref outputs.now }
    requires records { All (IsLoss samples) (map T.entry_of records.now) }
    requires within { AreWithin (map T.entry_of records.now) }
    ensures records { IfOk result (λ made. made.records ≡ insured_records (tree_of portfolio.now.rows 0) rule samples portfolio.now.rows.fm_xref (map T.entry_of records.now)) }
    ensures layers { IfOk result (λ made. made.layers ≡ layer_sums (tree_of portfolio.now.rows 0) rule samples (map T.entry_of records.now)) }
    ensures conserved { IfOk result (λ made. All (λ entry. entry.allocated ≡ entry.policy) made.layers) }
    ensures good { IfOk result (λ made. All (IsLoss samples) made.records) }
{
    let run = Listed { records };
    let made = insured_lanes(alloc, portfolio, structure, outputs, samples, rule, &run)?;
    let records = made.losses.to_records(alloc)?;
    Ok(Insured {
        records,
        layers: made.layers,
    })
}

/// Appends the insured losses of the records of a run, by a programme of the ids that have losses, as they stand in a stream. An
/// error is want of memory, and nothing is appended then.
fn put_of<T: RunEntry>(
    alloc: Global,
    portfolio: &Portfolio,
    programme: &Programme,
    layout: &Layout,
    samples: u32,
    records: &[T],
    out: &mut Bytes,
) -> Result<(), AllocError>
    requires samples { samples ≤ 1000 }
    requires rule { layout.now.rule ≤ 2 }
    requires layout { (tree : Tree) → IsProgramme tree programme.now → IsLayout tree portfolio.now.rows.fm_xref programme.now layout.now }
    requires records { All (IsLoss samples) (map T.entry_of records.now) }
    requires within { AreWithin (map T.entry_of records.now) }
    ensures ok { OnOk result ((tree : Tree) → IsProgramme tree programme.now → out.new ≡ out.old ++ flat_map loss_bytes (insured_records tree layout.now.rule samples portfolio.now.rows.fm_xref (map T.entry_of records.now))) }
    ensures unchanged { OnErr result (out.new ≡ out.old) }
{
    programme.is_of_a_tree();
    let event = event_of(records);
    let layers = layout.layers();
    let table = table_of(alloc, programme, samples, layout.rule(), layers, records)?;
    put_records(alloc, event, &table, layout.outlets(), out)
}

/// Appends the insured losses of the records of one run as they stand in a stream: the records of `insured`, which says what must
/// hold. An error is want of memory, and nothing is appended then.
pub fn put_insured<T: RunEntry>(
    alloc: Global,
    portfolio: &Portfolio,
    structure: &Structure,
    outputs: &OutputIndex,
    samples: u32,
    rule: u32,
    records: &[T],
    out: &mut Bytes,
) -> Result<(), AllocError>
    requires samples { samples ≤ 1000 }
    requires rule { rule ≤ 2 }
    requires structure { IsStructure (tree_of portfolio.now.rows 0) (kept_by structure.now) }
    requires outputs { AreIndexed portfolio.now.rows.fm_xref outputs.now }
    requires records { All (IsLoss samples) (map T.entry_of records.now) }
    requires within { AreWithin (map T.entry_of records.now) }
    ensures ok { OnOk result (out.new ≡ out.old ++ flat_map loss_bytes (insured_records (tree_of portfolio.now.rows 0) rule samples portfolio.now.rows.fm_xref (map T.entry_of records.now))) }
    ensures unchanged { OnErr result (out.new ≡ out.old) }
{
    let ids = ids_of(alloc, records)?;
    let (programme, layout) = programme_for(alloc, structure, outputs, rule, &ids)?;
    put_of(alloc, portfolio, &programme, &layout, samples, records, out)
}
