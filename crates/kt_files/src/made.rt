//! The rows that the blocks of some events add to the output files, made before they are written.
//! The rules: docs/OUTPUTS.md, "Files of a run".
ghost use Rattle.std.specs.Prelude.{◌≡◌, ◌++◌, ◌≤◌, ℕ, List, IfOk, IfSome, OnOk, OnErr, true};
ghost use Rattle.std.specs.List.{AllByRecursion, flat_map};
ghost use Rattle.kt_block.specs.Block.{AreSummaries};
ghost use Rattle.kt_block.specs.declared.block.EventBlock.{EventBlock};
ghost use Rattle.kt_files.specs.MadeRows.{AreRowsOf};
ghost use Rattle.kt_files.specs.Parts.{block_text};
ghost use Rattle.kt_rec.specs.Rows.{Rows};
ghost use Rattle.kt_stream.specs.Write.{BeginsWith};

use crate::blocks::{is_same, push_block};
use crate::file::{OutputFile, SetTable};
use kt_block::{EventBlock, SummarySet};
use kt_money::{Bytes, OutOfMemory};
use kt_stream::Records;
use kt_tables::Portfolio;
use std::alloc::Global;

/// The rows that some blocks add to a file.
#[derive(Drop)]
pub struct FileRows {
    /// The file.
    pub file: OutputFile,
    /// The rows as text.
    pub text: Bytes,
}

/// Appends what blocks add to a file, one after the other. The records of the blocks are those of a stream with `samples` samples, from 1
/// to 1,000. An error is want of memory; then some of the rows may stand behind what was there.
pub fn push_blocks(
    out: &mut Bytes,
    portfolio: &Portfolio,
    samples: u32,
    file: &OutputFile,
    blocks: &[EventBlock],
) -> Result<(), OutOfMemory>
    requires some { 1 ≤ samples }
    requires few { samples ≤ 1000 }
    requires good { AllByRecursion (λ block. AreSummaries samples block.summaries) blocks.now }
    ensures ok { OnOk result (out.new ≡ out.old ++ flat_map (block_text samples portfolio.now.rows file.now) blocks.now) }

    ensures kept { OnErr result (BeginsWith out.old out.new) }
{
    if !file.grows() {
        return Ok(());
    }
    for block in blocks {
        push_block(out, portfolio, samples, file, block)?;
    }
    Ok(())
}

/// What blocks add to a file, by itself. An error is want of memory.
fn rows_of_file(
    alloc: Global,
    portfolio: &Portfolio,
    samples: u32,
    file: &OutputFile,
    blocks: &[EventBlock],
) -> Result<Bytes, OutOfMemory>
    requires some { 1 ≤ samples }
    requires few { samples ≤ 1000 }
    requires good { AllByRecursion (λ block. AreSummaries samples block.summaries) blocks.now }
    ensures { IfOk result (λ text. text ≡ flat_map (block_text samples portfolio.now.rows file.now) blocks.now) }
{
    let mut text = Bytes::new(alloc);
    push_blocks(&mut text, portfolio, samples, file, blocks)?;
    Ok(text)
}

/// What blocks add to each of some files that gains a row by them. The records of the blocks are those of a stream with `samples` samples,
/// from 1 to 1,000. An error is want of memory.
pub fn make_rows(
    alloc: Global,
    portfolio: &Portfolio,
    samples: u32,
    files: &[OutputFile],
    blocks: &[EventBlock],
) -> Result<Records<FileRows>, OutOfMemory>
    requires some { 1 ≤ samples }
    requires few { samples ≤ 1000 }
    requires good { AllByRecursion (λ block. AreSummaries samples block.summaries) blocks.now }
    ensures { IfOk result (λ made. AreRowsOf samples portfolio.now.rows blocks.now made) }
{
    let mut made = Records::new(alloc);
    for file in files {
        let text = rows_of_file(alloc, portfolio, samples, file, blocks)?;
        if !text.is_empty() {
            made.push(FileRows { file: *file, text })?;
        }
    }
    Ok(made)
}

/// Whether two summary sets are the same.
fn is_same_set(one: SummarySet, other: SummarySet) -> bool
    ensures { result ≡ true → one ≡ other }
{
    is_same(one.perspective, other.perspective) && one.set == other.set
}

/// Whether two files are the same one, which grows event by event.
fn is_same_file(one: OutputFile, other: OutputFile) -> bool
    ensures { result ≡ true → one ≡ other }
{
    match (one, other) {
        (OutputFile::OfSet(set, SetTable::EventLoss), OutputFile::OfSet(own, SetTable::EventLoss))
        | (
            OutputFile::OfSet(set, SetTable::PeriodLoss),
            OutputFile::OfSet(own, SetTable::PeriodLoss),
        ) => is_same_set(set, own),
        (OutputFile::Layers, OutputFile::Layers) => true,
        _ => false,
    }
}

/// The rows that were made for a file; `None` where none were, and for a table over all periods, to which events add no row.
pub fn find_rows<'a>(made: &'a [FileRows], file: &OutputFile) -> Option<&'a Bytes>
    ensures { (samples : ℕ) (rows : Rows) (blocks : List EventBlock) → AreRowsOf samples rows blocks made.now → IfSome result (λ text. text.now ≡ flat_map (block_text samples rows file.now) blocks) }
{
    if !file.grows() {
        return None;
    }
    for one in made {
        if is_same_file(one.file, *file) {
            return Some(&one.text);
        }
    }
    None
}
