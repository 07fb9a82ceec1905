//! An output file of a run.
//! The rules: docs/OUTPUTS.md, "Files of a run".

ghost use Rattle.std.specs.Prelude.{◌≡◌, ◌++◌, ℕ, List, [], false};
ghost use Rattle.std.specs.List.{flat_map};
ghost use Rattle.kt_block.specs.declared.block.EventBlock.{EventBlock};
ghost use Rattle.kt_files.specs.Parts.{block_text, record_rows};
ghost use Rattle.kt_rec.specs.Rows.{Rows};
ghost use Rattle.kt_stream.specs.declared.entry.SummaryRecord.{SummaryRecord};

use kt_block::SummarySet;
use kt_rec::Curve;

/// A table of a summary set.
#[derive(Clone, Copy)]
pub enum SetTable {
    /// The event loss table.
    EventLoss,
    /// The period loss table.
    PeriodLoss,
    /// The average annual losses.
    AverageAnnualLoss,
    /// An exceedance curve.
    ExceedanceCurve(Curve),
}

/// An output file of a run.
#[derive(Clone, Copy)]
pub enum OutputFile {
    /// A table of a summary set.
    OfSet(SummarySet, SetTable),
    /// The sums of the layers.
    Layers,
}

impl SetTable {
    /// Whether records may add rows to it: the tables over all periods come whole at the end.
    fn grows(self) -> bool
        ensures { result ≡ false → (samples : ℕ) (rows : Rows) (entry : SummaryRecord) → record_rows samples rows self entry ≡ [] }
    {
        match self {
            SetTable::EventLoss => true,
            SetTable::PeriodLoss => true,
            SetTable::AverageAnnualLoss => false,
            SetTable::ExceedanceCurve(_) => false,
        }
    }
}

impl OutputFile {
    /// Whether events may add rows to it: the tables over all periods come whole at the end.
    pub(crate) fn grows(&self) -> bool
        ensures { result ≡ false → (samples : ℕ) (rows : Rows) (blocks : List EventBlock) (text : List ℕ) → text ≡ text ++ flat_map (block_text samples rows self.now) blocks }
    {
        match *self {
            OutputFile::OfSet(_, table) => table.grows(),
            OutputFile::Layers => true,
        }
    }
}
