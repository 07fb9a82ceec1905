//! The adapter over the files of the folder `output`: the trusted edge, which tells nothing of bytes.
//! The rule: docs/ARCHITECTURE.md, "The outside".
ghost use Rattle.std.specs.Prelude.{◌≡◌, ◌<◌, ◌≤◌, length, IfOk};
ghost use Rattle.kt_out.specs.OutputFiles.{CountsOutput, after_output_answer, real_outputs};

use crate::output_folder::OutputFolder;
use kt_out::{Fault, Outputs};
use std::alloc::Global;
use std::fs::Files;
use std::marker::Model;

/// The files of the folder `output` of the current folder as output files. The folder is made with the first file, where it
/// is not there. Contracts see the count of faults.
#[derive(Drop)]
pub struct DirOutputs<'a, R: Files> {
    folder: OutputFolder<'a, R>,
    faults: u64,
}

impl<'a, R: Files> Model for DirOutputs<'a, R> {
    ghost use Rattle.std.specs.Prelude.{ℕ};

    ghost Value = { ℕ };

    ghost view = { λ s. s.faults };
}

impl<'a, R: Files> DirOutputs<'a, R> {
    /// The folder `output` of the current folder, with no fault so far. Nothing is made yet.
    pub fn new(rt: &'a R, alloc: Global) -> Self
        ensures { result ≡ 0 }
    {
        DirOutputs {
            folder: OutputFolder::new(rt, alloc),
            faults: 0,
        }
    }
}

impl<R: Files> Outputs for DirOutputs<'_, R> {
    ghost state = { λ s. real_outputs s };

    fn faults(&self) -> u64 {
        self.faults
    }

    /// Makes a file empty, whatever it held. A folder of that name, a name that is no text and any other fault is `Failed`.
    fn create(&mut self, name: &[u8]) -> Result<(), Fault>
        // The count of faults rises by one exactly where `Failed` came.
        ensures exact { self.new ≡ after_output_answer self.old result }
        ensures counts { CountsOutput self.old self.new result }

        ensures counted { self.old ≤ self.new }
    {
        let answer = self.folder.create(name);
        if let Err(Fault::Failed) = answer {
            self.faults = self.faults.saturating_add(1);
        }
        answer
    }

    /// Writes at the end of a file, which is made where it is not there. A write that takes nothing is `Failed`.
    fn append(&mut self, name: &[u8], piece: &[u8]) -> Result<usize, Fault>
        requires { 0 < length piece.now }

        ensures within { IfOk result (λ n. (0 < n) × (n ≤ length piece.now)) }

        // The count of faults rises by one exactly where `Failed` came.
        ensures exact { self.new ≡ after_output_answer self.old result }
        ensures counts { CountsOutput self.old self.new result }

        ensures counted { self.old ≤ self.new }
    {
        let answer = self.folder.append(name, piece);
        if let Err(Fault::Failed) = answer {
            self.faults = self.faults.saturating_add(1);
        }
        answer
    }
}
