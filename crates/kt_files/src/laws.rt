//! What holds of the output files of every run.
//! The rules: docs/OUTPUTS.md, "Files of a run".
ghost use Rattle.std.specs.Prelude.{map};
ghost use Rattle.kt_files.specs.OutputFiles.{output_files, output_name};
ghost use Rattle.kt_outputs.specs.Names.{AreDistinct};
ghost use Rattle.kt_rec.specs.Rows.{Rows};
ghost use Rattle.kt_rec.specs.declared.perspective.Perspective.{Perspective};

/// No two files of a run have the same name, whatever the rows of its tables and up to whichever perspective it goes.
pub fn names_are_distinct()
    ensures distinct { (rows : Rows) (last : Perspective) → AreDistinct (map output_name (output_files rows last)) }
{}
