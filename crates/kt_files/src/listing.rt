//! Which output files a run has.
//! The rules: docs/OUTPUTS.md, "Files of a run".
ghost use Rattle.std.specs.Prelude.{◌≡◌, ◌++◌, IfOk, map, OnOk};
ghost use Rattle.std.specs.List.{flat_map};
ghost use Rattle.kt_files.specs.OutputFiles.{layer_files, output_files, set_files};
ghost use Rattle.kt_files.specs.declared.file.OutputFile.TheVariants.{OfSet};

use crate::file::{OutputFile, SetTable};
use crate::sets::run_sets;
use kt_block::SummarySet;
use kt_rec::{Curve, Perspective};
use kt_tables::Portfolio;
use std::alloc::{AllocError, Global};

/// The tables of a summary set in the order of their files.
const TABLES: [SetTable; 11] = [
    SetTable::EventLoss,
    SetTable::PeriodLoss,
    SetTable::AverageAnnualLoss,
    SetTable::ExceedanceCurve(Curve::FullAep),
    SetTable::ExceedanceCurve(Curve::FullOep),
    SetTable::ExceedanceCurve(Curve::SampleAep),
    SetTable::ExceedanceCurve(Curve::SampleOep),
    SetTable::ExceedanceCurve(Curve::WheatAep),
    SetTable::ExceedanceCurve(Curve::WheatOep),
    SetTable::ExceedanceCurve(Curve::WheatmeanAep),
    SetTable::ExceedanceCurve(Curve::WheatmeanOep),
];

/// Puts the files of these tables of a summary set behind others. An error is want of memory.
fn push_tables(
    set: SummarySet,
    tables: &[SetTable],
    files: &mut Vec<OutputFile>,
) -> Result<(), AllocError>
    ensures { OnOk result (files.new.items ≡ files.old.items ++ map (OfSet set) tables.now) }
{
    for table in tables {
        files.push(OutputFile::OfSet(set, *table))?;
    }
    Ok(())
}

/// Puts the files of summary sets behind others. An error is want of memory.
fn push_set_files(sets: &[SummarySet], files: &mut Vec<OutputFile>) -> Result<(), AllocError>
    ensures { OnOk result (files.new.items ≡ files.old.items ++ flat_map set_files sets.now) }
{
    for set in sets {
        push_tables(*set, &TABLES, files)?;
    }
    Ok(())
}

/// Puts the file of the layers behind others, where there are insured losses. An error is want of memory.
fn push_layer_file(last: Perspective, files: &mut Vec<OutputFile>) -> Result<(), AllocError>
    ensures { OnOk result (files.new.items ≡ files.old.items ++ layer_files last) }
{
    match last {
        Perspective::Gul => Ok(()),
        Perspective::Il | Perspective::Ri => {
            files.push(OutputFile::Layers)?;
            Ok(())
        }
    }
}

/// The files of a run up to a last perspective, in the order of their making: those of each summary set of each perspective,
/// and that of the layers where there are insured losses. An error is want of memory.
pub fn output_files(
    alloc: Global,
    portfolio: &Portfolio,
    last: Perspective,
) -> Result<Vec<OutputFile>, AllocError>
    ensures value { IfOk result (λ files. files.items ≡ output_files portfolio.now.rows last) }
{
    let sets = run_sets(alloc, portfolio, last)?;
    let mut files = Vec::new(alloc);
    push_set_files(sets.as_slice(), &mut files)?;
    push_layer_file(last, &mut files)?;
    Ok(files)
}
