//! The heads of output files.
//! The rules: docs/OUTPUTS.md, "Files of a run".
ghost use Rattle.std.specs.Prelude.{◌≡◌};
ghost use Rattle.kt_files.specs.Parts.{head_text};

use crate::file::{OutputFile, SetTable};
use crate::layers::layers_heading;
use kt_elt::{elt_heading, plt_heading};
use kt_money::{Bytes, OutOfMemory};
use kt_outputs::Texts;

/// The head of a file.
fn heading(file: OutputFile) -> &'static [u8]
    ensures { result.now ≡ head_text file }
{
    match file {
        OutputFile::OfSet(_, SetTable::EventLoss) => elt_heading(),
        OutputFile::OfSet(_, SetTable::PeriodLoss) => plt_heading(),
        OutputFile::OfSet(_, SetTable::AverageAnnualLoss | SetTable::ExceedanceCurve(_)) => b"",
        OutputFile::Layers => layers_heading(),
    }
}

/// The heads of all files: the names of the columns of each table that grows event by event.
#[derive(Clone, Copy)]
pub struct Headings;

impl Texts<OutputFile> for Headings {
    ghost use Rattle.std.specs.Prelude.{[], ◌∷◌};
    ghost use Rattle.kt_files.specs.Parts.{head_text};

    ghost Start = { Unit {0} };

    ghost are_of = { λ _ _. Unit {0} };

    ghost pieces_of = { λ _ _ file. head_text file ∷ [] };

    fn pieces(&self, _file: &OutputFile) -> usize {
        1
    }

    fn push(&self, file: &OutputFile, piece: usize, out: &mut Bytes) -> Result<(), OutOfMemory> {
        if piece == 0 {
            out.append(heading(*file))
        } else {
            Ok(())
        }
    }
}
