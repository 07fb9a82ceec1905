//! What the parts of a round add to the output files.
//! The rules: docs/OUTPUTS.md, "Files of a run".
ghost use Rattle.std.specs.Prelude.{◌≡◌, ℕ, List, [], IfSome, map, slice_index_or};
ghost use Rattle.std.specs.List.{flat_map};
ghost use Rattle.kt_files.specs.Parts.{block_text};
ghost use Rattle.kt_fold.specs.declared.part.PartBlock.{PartBlock};
ghost use Rattle.kt_rec.specs.Rows.{Rows};
ghost use Rattle.kt_chain.specs.TextFolds.{AreRowsOfParts};

use kt_files::{FileRows, OutputFile, find_rows, push_blocks};
use kt_fold::PartBlock;
use kt_money::{Bytes, OutOfMemory};
use kt_outputs::Texts;
use kt_stream::Records;
use kt_tables::Portfolio;
use std::marker::Model;

/// The rows that were made of a part for a file; `None` where none were.
fn rows_made<'a>(made: &'a [Records<FileRows>], part: usize, file: &OutputFile) -> Option<&'a Bytes>
    ensures { (samples : ℕ) (rows : Rows) (parts : List PartBlock) → AreRowsOfParts samples rows made.now parts → IfSome result (λ text. text.now ≡ slice_index_or (map (λ one. flat_map (block_text samples rows file.now) one.blocks) parts) part []) }
{
    find_rows(made.get(part)?.as_slice(), file)
}

/// The rows of the parts of a round, a piece a part: those that were made with the part, or made here. Contracts see the number of samples,
/// the rows of the tables, the parts and what was made with them.
#[derive(Drop)]
pub(crate) struct RoundTexts<'a> {
    pub(crate) portfolio: &'a Portfolio,
    pub(crate) samples: u32,
    pub(crate) parts: &'a [PartBlock],
    /// What was made with the first of them.
    pub(crate) made: &'a [Records<FileRows>],
}

impl<'a> Model for RoundTexts<'a> {
    ghost use Rattle.kt_chain.specs.RoundRows.{AreGoodParts, PartRows};

    ghost Value = { PartRows };

    ghost view = { λ t. record { samples = t.samples; rows = t.portfolio.now.rows; parts = t.parts.now; made = t.made.now } };

    ghost invariant = { λ t. AreGoodParts t.samples t.parts.now };
}

impl<'a> Texts<OutputFile> for RoundTexts<'a> {
    ghost use Rattle.kt_chain.specs.RoundRows.{pieces_of_parts};
    ghost use Rattle.kt_chain.specs.TextFolds.{AreRowsOfParts};

    ghost Start = { Unit {0} };

    ghost are_of = { λ _ texts. AreRowsOfParts texts.samples texts.rows texts.made texts.parts };

    ghost pieces_of = { λ _ texts file. pieces_of_parts texts file };

    fn pieces(&self, _file: &OutputFile) -> usize {
        self.parts.len()
    }

    fn push(&self, file: &OutputFile, piece: usize, out: &mut Bytes) -> Result<(), OutOfMemory> {
        if let Some(text) = rows_made(self.made, piece, file) {
            return out.append(text.as_slice());
        }
        match self.parts.get(piece) {
            Some(part) => push_blocks(
                out,
                self.portfolio,
                self.samples,
                file,
                part.blocks.as_slice(),
            ),
            None => Ok(()),
        }
    }
}
