//! What has the name of an output file.
//! The rule: docs/OUTPUTS.md, "Files of a run".
ghost use Rattle.std.specs.Prelude.{◌≡◌, IfOk};

use kt_rec::Name;
use std::alloc::{AllocError, Global};

/// A value that says the name of its file.
pub trait Named {
    ghost use Rattle.std.specs.Prelude.{◌≡◌, ◌++◌, ℕ, List, OnOk, OnErr};
    ghost use Rattle.kt_stream.specs.Write.{BeginsWith};

    /// The bytes of the name.
    ghost name: { Self → List ℕ };

    /// Appends the name. The error is want of memory; then some of the name may stand behind what was there.
    fn push_name(&self, out: &mut Name) -> Result<(), AllocError>
        ensures ok { OnOk result (out.new ≡ out.old ++ name self.now) }

        ensures kept { OnErr result (BeginsWith out.old out.new) };
}

/// The name of a file. The error is want of memory.
pub(crate) fn name_of<F: Named>(alloc: Global, file: &F) -> Result<Name, AllocError>
    ensures { IfOk result (λ name. name ≡ F.name file.now) }
{
    let mut name = Name::new(alloc);
    match file.push_name(&mut name) {
        Ok(()) => Ok(name),
        Err(error) => Err(error),
    }
}
