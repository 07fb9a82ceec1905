//! Making the files of a list empty.
//! The rules: docs/REFUSALS.md, "Statuses".
ghost use Rattle.std.specs.Prelude.{◌≡◌, ◌≤◌, [], map};
ghost use Rattle.kt_out.specs.OutputFiles.{Creates, CountsOutput};
ghost use Rattle.kt_outputs.specs.Files.{Makes, files_with};
ghost use Rattle.kt_outputs.specs.Names.{AreDistinct};
ghost use Rattle.kt_outputs.specs.Texts.{no_text};

use crate::named::{Named, name_of};
use kt_out::{Fault, Outputs};
use std::alloc::Global;

// Makes the file empty.
fn create_file<O: Outputs, F: Named>(alloc: Global, outputs: &mut O, file: &F) -> Result<(), Fault>
    ensures moved { Creates (O.state outputs.old).written (O.state outputs.new).written (F.name file.now) result }

    ensures counts { CountsOutput (O.state outputs.old).faults (O.state outputs.new).faults result }
    ensures counted { (O.state outputs.old).faults ≤ (O.state outputs.new).faults }
{
    match name_of(alloc, file) {
        Ok(name) => outputs.create(name.as_slice()),
        Err(_) => Err(Fault::OutOfMemory),
    }
}

/// Makes the files of a list empty, one after the other; their names are distinct. After a refusal a front of them is made,
/// and the next may be. The count of faults rises exactly where `Failed` comes; want of memory, also of a name, raises none.
pub fn create_files<O: Outputs, F: Named>(
    alloc: Global,
    outputs: &mut O,
    files: &[F],
) -> Result<(), Fault>
    requires distinct { AreDistinct (map F.name files.now) }

    ensures made { Makes [] (files_with F.name no_text files.now) (O.state outputs.old) (O.state outputs.new) result }

    ensures counts { CountsOutput (O.state outputs.old).faults (O.state outputs.new).faults result }
    ensures counted { (O.state outputs.old).faults ≤ (O.state outputs.new).faults }
{
    for file in files {
        match create_file(alloc, outputs, file) {
            Ok(()) => {}
            Err(fault) => return Err(fault),
        }
    }
    Ok(())
}
