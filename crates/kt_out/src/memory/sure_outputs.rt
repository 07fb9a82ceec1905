//! Output files in memory that never fail.
//! The rule: docs/ARCHITECTURE.md, "The outside".
ghost use Rattle.std.specs.Prelude.{◌≡◌, ◌<◌, ◌++◌, [], Some, length, slice_get, IfErr, IfOk, OnErr, OnOk};
ghost use Rattle.std.specs.Option.{option_copied, option_map};
ghost use Rattle.kt_kept_files.specs.NamedFiles.{bytes_of, with_file, HaveDistinctNames};
ghost use Rattle.kt_out.specs.OutputFiles.{Appends, Creates, written_so_far};

use crate::{Fault, Outputs};
use kt_kept_files::Files;
use std::alloc::Global;
use std::marker::Model;

/// Output files in memory that never fail. Contracts see the list of them, in which no name comes
/// twice.
#[derive(Drop)]
pub struct SureOutputs {
    files: Files,
}

impl Model for SureOutputs {
    ghost use Rattle.std.specs.Prelude.{List};
    ghost use Rattle.kt_kept_files.specs.NamedFiles.{File};

    ghost Value = { List File };

    ghost view = { λ s. s.files };
}

impl SureOutputs {
    /// No file.
    pub fn new(alloc: Global) -> Self
        ensures { result ≡ [] }
    {
        SureOutputs {
            files: Files::new(alloc),
        }
    }

    /// The bytes that the name stands for, or `None` where it was neither created nor appended to.
    pub fn get(&self, name: &[u8]) -> Option<&[u8]>
        ensures { option_copied result ≡ bytes_of self.now name.now }
    {
        self.files.get(name)
    }

    /// How many names there are.
    pub fn count(&self) -> u64
        ensures value { result ≡ length self.now }
        ensures distinct { HaveDistinctNames self.now }
    {
        self.files.count()
    }

    /// The n-th name, counted from 0 in the order in which they came.
    pub fn name(&self, n: u64) -> &[u8]
        requires { n < length self.now }

        ensures { option_map (λ file. file.name) (slice_get self.now n) ≡ Some result.now }
    {
        self.files.name(n)
    }
}

impl Outputs for SureOutputs {
    ghost state = { λ files. record { written = Some (bytes_of files); faults = 0 } };

    fn faults(&self) -> u64 {
        0
    }

    /// Makes the name stand for no bytes; its only error is want of memory.
    #[tactic(auto, using(kt_kept_files::proofs::NamedFilesLemmas::file_names))]
    fn create(&mut self, name: &[u8]) -> Result<(), Fault>
        ensures ok { Creates (Some (bytes_of self.old)) (Some (bytes_of self.new)) name.now result }
        ensures exact { OnOk result (self.new ≡ with_file self.old name.now []) }

        // It never fails.
        ensures memory { IfErr result (λ fault. fault ≡ Fault.OutOfMemory) }

        ensures unchanged { OnErr result (self.new ≡ self.old) }
    {
        Ok(self.files.put(name, &[])?)
    }

    /// Adds the whole piece; its only error is want of memory.
    #[tactic(auto, using(kt_kept_files::proofs::NamedFilesLemmas::file_names))]
    fn append(&mut self, name: &[u8], piece: &[u8]) -> Result<usize, Fault>
        requires { 0 < length piece.now }

        ensures moved { Appends (Some (bytes_of self.old)) (Some (bytes_of self.new)) name.now piece.now result }
        ensures ok { IfOk result (λ n. n ≡ length piece.now) }
        ensures exact { OnOk result (self.new ≡ with_file self.old name.now (written_so_far (bytes_of self.old) name.now ++ piece.now)) }

        // It never fails.
        ensures memory { IfErr result (λ fault. fault ≡ Fault.OutOfMemory) }

        ensures unchanged { OnErr result (self.new ≡ self.old) }
    {
        self.files.append(name, piece)?;
        Ok(piece.len())
    }
}
