//! Output files that are counted and not kept.
//! The rule: docs/GENERATOR.md, "What is shown of a run".
ghost use Rattle.std.specs.Prelude.{◌≡◌, ◌<◌, ◌++◌, [], Some, length, IfErr, IfOk, MatchOption, OnErr, OnOk};
ghost use Rattle.std.specs.Option.{option_map};
ghost use Rattle.kt_counted.specs.Counts.{counts_of};
ghost use Rattle.kt_out.specs.NamedFiles.{bytes_of, with_file, IsNewName, IsPlaceOf};
ghost use Rattle.kt_out.specs.OutputFiles.{Appends, Creates, written_so_far};

use crate::counted_file::CountedFile;
use crate::counts::Counts;
use kt_out::{Fault, Outputs};
use std::alloc::{AllocError, Global};
use std::marker::Model;

/// Output files that never fail, of which the lines and the bytes are counted and no text is kept. Contracts see the list of
/// the files with their bytes.
#[derive(Drop)]
pub struct CountedOutputs {
    alloc: Global,
    files: Vec<CountedFile>,
}

impl Model for CountedOutputs {
    ghost use Rattle.std.specs.Prelude.{List};
    ghost use Rattle.kt_out.specs.NamedFiles.{File};

    ghost Value = { List File };

    ghost view = { λ s. s.files.items };
}

impl CountedOutputs {
    /// No file.
    pub fn new(alloc: Global) -> Self
        ensures { result ≡ [] }
    {
        CountedOutputs {
            alloc,
            files: Vec::new(alloc),
        }
    }

    /// The counts of the bytes that the name stands for, or `None` where it was neither created nor appended to.
    #[tactic(auto, using(kt_kept_files::proofs::NamedFilesLemmas::file_changes))]
    pub fn counts(&self, name: &[u8]) -> Option<Counts>
        ensures { result ≡ option_map counts_of (bytes_of self.now name.now) }
    {
        match place_of(&self.files, name) {
            Some(place) => Some(self.files[place].counts()),
            None => None,
        }
    }

    /// Makes the name stand for no bytes.
    #[tactic(auto, using(kt_kept_files::proofs::NamedFilesLemmas::file_changes))]
    fn empty(&mut self, name: &[u8]) -> Result<(), AllocError>
        ensures ok { OnOk result (self.new ≡ with_file self.old name.now []) }

        ensures unchanged { OnErr result (self.new ≡ self.old) }
    {
        match place_of(&self.files, name) {
            Some(place) => {
                let file = &mut self.files[place];
                file.clear();
            }
            None => {
                let file = CountedFile::new(self.alloc, name)?;
                self.files.push(file)?;
            }
        }
        Ok(())
    }

    /// Adds the piece behind what the name stands for, and behind nothing where it is new.
    #[tactic(auto, using(kt_kept_files::proofs::NamedFilesLemmas::file_changes))]
    fn extend(&mut self, name: &[u8], piece: &[u8]) -> Result<(), AllocError>
        ensures ok { OnOk result (self.new ≡ with_file self.old name.now (written_so_far (bytes_of self.old) name.now ++ piece.now)) }

        ensures unchanged { OnErr result (self.new ≡ self.old) }
    {
        match place_of(&self.files, name) {
            Some(place) => {
                let file = &mut self.files[place];
                file.extend(piece)?;
            }
            None => {
                let mut file = CountedFile::new(self.alloc, name)?;
                file.extend(piece)?;
                self.files.push(file)?;
            }
        }
        Ok(())
    }
}

impl Outputs for CountedOutputs {
    ghost state = { λ files. record { written = Some (bytes_of files); faults = 0 } };

    fn faults(&self) -> u64 {
        0
    }

    /// Makes the name stand for no bytes; its only error is want of memory.
    fn create(&mut self, name: &[u8]) -> Result<(), Fault>
        ensures ok { Creates (Some (bytes_of self.old)) (Some (bytes_of self.new)) name.now result }
        ensures exact { OnOk result (self.new ≡ with_file self.old name.now []) }

        // It never fails.
        ensures memory { IfErr result (λ fault. fault ≡ Fault.OutOfMemory) }

        ensures unchanged { OnErr result (self.new ≡ self.old) }
    {
        Ok(self.empty(name)?)
    }

    /// Adds the whole piece; its only error is want of memory, which a count that is no `u64` counts as.
    fn append(&mut self, name: &[u8], piece: &[u8]) -> Result<usize, Fault>
        requires { 0 < length piece.now }

        ensures moved { Appends (Some (bytes_of self.old)) (Some (bytes_of self.new)) name.now piece.now result }
        ensures ok { IfOk result (λ n. n ≡ length piece.now) }
        ensures exact { OnOk result (self.new ≡ with_file self.old name.now (written_so_far (bytes_of self.old) name.now ++ piece.now)) }

        // It never fails.
        ensures memory { IfErr result (λ fault. fault ≡ Fault.OutOfMemory) }

        ensures unchanged { OnErr result (self.new ≡ self.old) }
    {
        self.extend(name, piece)?;
        Ok(piece.len())
    }
}

/// The place of the file with this name.
fn place_of(files: &[CountedFile], name: &[u8]) -> Option<usize>
    ensures { MatchOption result (IsNewName files.now name.now) (IsPlaceOf files.now name.now) }
{
    files.iter().position(|file| file.is_named(name))
}
