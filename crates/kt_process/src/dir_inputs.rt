//! The adapter over the files of the current folder: the trusted edge, which tells nothing of bytes.
//! The rule: docs/ARCHITECTURE.md, "The outside".
ghost use Rattle.std.specs.Prelude.{◌≡◌, ◌<◌, ◌≤◌, length, IfOk};
ghost use Rattle.kt_out.specs.InputFiles.{AfterRead, AfterSize, after_read_answer, after_size_answer, real_files};

use crate::folder::Folder;
use kt_out::{Absent, Fault, Inputs};
use std::alloc::Global;
use std::fs::Files;
use std::marker::Model;

/// The files of the current folder as input files. A name is a relative path with `/` between its
/// parts. Contracts see the counts of faults and of misses.
#[derive(Drop)]
pub struct DirInputs<'a, R: Files> {
    folder: Folder<'a, R>,
    faults: u64,
    misses: u64,
}

impl<'a, R: Files> Model for DirInputs<'a, R> {
    ghost use Rattle.kt_out.specs.InputFiles.{FileCounts};

    ghost Value = { FileCounts };

    ghost view = { λ s. record { faults = s.faults; misses = s.misses } };
}

impl<'a, R: Files> DirInputs<'a, R> {
    /// The files of the current folder, with no fault and no miss so far.
    pub fn new(rt: &'a R, alloc: Global) -> Self
        ensures { result ≡ record { faults = 0; misses = 0 } }
    {
        DirInputs {
            folder: Folder::new(rt, alloc),
            faults: 0,
            misses: 0,
        }
    }
}

impl<R: Files> Inputs for DirInputs<'_, R> {
    ghost state = { λ s. real_files s };

    fn faults(&self) -> u64 {
        self.faults
    }

    fn misses(&self) -> u64 {
        self.misses
    }

    /// The size of a file. `Missing` is a path that is not found; a folder, a file that may not be
    /// read and any other fault is `Failed`.
    fn size(&mut self, name: &[u8]) -> Result<u64, Absent>
        // A count rises by one exactly where its answer came.
        ensures exact { self.new ≡ after_size_answer self.old result }
        ensures counts { AfterSize (real_files self.old) (real_files self.new) result }

        ensures counted { (self.old.faults ≤ self.new.faults) × (self.old.misses ≤ self.new.misses) }
    {
        let answer = self.folder.size(name);
        match answer {
            Err(Absent::Failed) => self.faults = self.faults.saturating_add(1),
            Err(Absent::Missing) => self.misses = self.misses.saturating_add(1),
            Err(Absent::OutOfMemory) | Ok(_) => {}
        }
        answer
    }

    /// Reads from a place on. A file that is not there any more, or has become shorter, is `Failed`.
    fn read_at(&mut self, name: &[u8], at: u64, buf: &mut [u8]) -> Result<usize, Fault>
        requires room { 0 < length buf.old }

        ensures within { IfOk result (λ n. (0 < n) × (n ≤ length buf.old)) }

        // The count of faults rises by one exactly where `Failed` came.
        ensures exact { self.new ≡ after_read_answer self.old result }
        ensures counts { AfterRead (real_files self.old) (real_files self.new) result }

        ensures counted { self.old.faults ≤ self.new.faults }
    {
        let answer = self.folder.read_at(name, at, buf);
        if let Err(Fault::Failed) = answer {
            self.faults = self.faults.saturating_add(1);
        }
        answer
    }
}
