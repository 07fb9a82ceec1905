//! The names of output files.
//! The rules: docs/OUTPUTS.md, "Files of a run".
ghost use Rattle.std.specs.Prelude.{◌≡◌, ◌++◌, OnOk, OnErr};
ghost use Rattle.kt_files.specs.OutputFiles.{curve_word, output_name, perspective_word, set_digit, table_word};
ghost use Rattle.kt_files.specs.declared.file.OutputFile.TheVariants.{OfSet};
ghost use Rattle.kt_stream.specs.Write.{BeginsWith};

use crate::file::{OutputFile, SetTable};
use kt_block::SummarySet;
use kt_outputs::Named;
use kt_rec::{Curve, Name, Perspective};
use std::alloc::AllocError;

/// The digits.
const DIGITS: &[u8] = b"0123456789";

/// The word of a perspective.
fn perspective_word(perspective: Perspective) -> &'static [u8]
    ensures { result.now ≡ perspective_word perspective }
{
    match perspective {
        Perspective::Gul => b"gul",
        Perspective::Il => b"il",
        Perspective::Ri => b"ri",
    }
}

/// The word of a curve.
fn curve_word(curve: Curve) -> &'static [u8]
    ensures { result.now ≡ curve_word curve }
{
    match curve {
        Curve::FullAep => b"full_aep",
        Curve::FullOep => b"full_oep",
        Curve::SampleAep => b"sample_aep",
        Curve::SampleOep => b"sample_oep",
        Curve::WheatAep => b"wheat_aep",
        Curve::WheatOep => b"wheat_oep",
        Curve::WheatmeanAep => b"wheatmean_aep",
        Curve::WheatmeanOep => b"wheatmean_oep",
    }
}

/// The digit of a summary set.
fn set_digit(set: u32) -> &'static [u8]
    ensures { result.now ≡ set_digit set }
{
    let place = set as usize;
    if place < DIGITS.len() {
        &DIGITS[place..place + 1]
    } else {
        b""
    }
}

/// Appends the word of a table. An error is want of memory.
fn push_table_word(table: SetTable, out: &mut Name) -> Result<(), AllocError>
    ensures ok { OnOk result (out.new ≡ out.old ++ table_word table) }
    ensures kept { OnErr result (BeginsWith out.old out.new) }
{
    match table {
        SetTable::EventLoss => out.append(b"elt"),
        SetTable::PeriodLoss => out.append(b"plt"),
        SetTable::AverageAnnualLoss => out.append(b"aal"),
        SetTable::ExceedanceCurve(curve) => {
            out.append(b"lec_")?;
            out.append(curve_word(curve))
        }
    }
}

/// Appends the name of a table of a summary set. An error is want of memory.
fn push_set_name(set: SummarySet, table: SetTable, out: &mut Name) -> Result<(), AllocError>
    ensures ok { OnOk result (out.new ≡ out.old ++ output_name (OfSet set table)) }
    ensures kept { OnErr result (BeginsWith out.old out.new) }
{
    out.append(perspective_word(set.perspective))?;
    out.append(b"_S")?;
    out.append(set_digit(set.set))?;
    out.append(b"_")?;
    push_table_word(table, out)?;
    out.append(b".csv")
}

impl Named for OutputFile {
    ghost use Rattle.kt_files.specs.OutputFiles.{output_name};

    ghost name = { output_name };

    fn push_name(&self, out: &mut Name) -> Result<(), AllocError> {
        match *self {
            OutputFile::OfSet(set, table) => push_set_name(set, table, out),
            OutputFile::Layers => out.append(b"il_layers.csv"),
        }
    }
}
