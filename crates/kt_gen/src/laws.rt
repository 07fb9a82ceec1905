//! A theorem over the definitions: what is shown of files that were made.
//! The rule: docs/GENERATOR.md, "What is shown of a run".
ghost use Rattle.kt_gen.specs.Shown.{MadeFilesAreShown};

/// Of files that were made, the lines that are shown are those of their texts.
pub fn made_files_are_shown()
    ensures { MadeFilesAreShown }
{}
