//! Files in memory: a list of names and their bytes, in the order in which the names came.
//! The rule: docs/ARCHITECTURE.md, "The outside".
ghost use Rattle.std.specs.Prelude.{◌≡◌, ◌<◌, ◌++◌, [], Some, length, slice_get, MatchOption, OnErr, OnOk};
ghost use Rattle.std.specs.Option.{option_copied, option_map};
ghost use Rattle.kt_kept_files.specs.NamedFiles.{bytes_of, with_file, HaveDistinctNames, IsNewName, IsPlaceOf};
ghost use Rattle.kt_kept_files.specs.NamedFiles.{written_so_far};

use crate::named_bytes::NamedBytes;
use std::alloc::{AllocError, Global};
use std::marker::Model;

/// Files in memory. Contracts see the list of them, in which no name comes twice.
#[derive(Drop)]
pub struct Files {
    alloc: Global,
    list: Vec<NamedBytes>,
}

impl Model for Files {
    ghost use Rattle.std.specs.Prelude.{List};
    ghost use Rattle.kt_kept_files.specs.NamedFiles.{File, HaveDistinctNames};

    ghost Value = { List File };

    ghost view = { λ f. f.list.items };

    ghost invariant = { λ f. HaveDistinctNames f.list.items };
}

impl Files {
    /// No file.
    pub fn new(alloc: Global) -> Self
        ensures { result ≡ [] }
    {
        Files {
            alloc,
            list: Vec::new(alloc),
        }
    }

    /// The bytes that the name stands for.
    #[tactic(auto, using(crate::proofs::NamedFilesLemmas::file_changes))]
    pub fn get(&self, name: &[u8]) -> Option<&[u8]>
        ensures { option_copied result ≡ bytes_of self.now name.now }
    {
        match place_of(&self.list, name) {
            Some(place) => Some(self.list[place].bytes()),
            None => None,
        }
    }

    /// How many files there are.
    pub fn count(&self) -> u64
        ensures value { result ≡ length self.now }
        ensures distinct { HaveDistinctNames self.now }
    {
        self.list.len() as u64
    }

    /// The n-th name, counted from 0.
    pub fn name(&self, n: u64) -> &[u8]
        requires { n < length self.now }

        ensures { option_map (λ file. file.name) (slice_get self.now n) ≡ Some result.now }
    {
        self.list[n as usize].name()
    }

    /// Makes the name stand for these bytes. An error is want of memory.
    #[tactic(auto, using(crate::proofs::NamedFilesLemmas::file_changes))]
    pub fn put(&mut self, name: &[u8], bytes: &[u8]) -> Result<(), AllocError>
        ensures ok { OnOk result (self.new ≡ with_file self.old name.now bytes.now) }

        ensures unchanged { OnErr result (self.new ≡ self.old) }
    {
        match place_of(&self.list, name) {
            Some(place) => {
                let bytes = bytes.to_vec(self.alloc)?;
                let file = &mut self.list[place];
                file.replace(bytes);
            }
            None => {
                let file = NamedBytes::new(self.alloc, name, bytes)?;
                self.list.push(file)?;
            }
        }
        Ok(())
    }

    /// Adds the piece behind what the name stands for, and behind nothing where it is new. An error is want of memory.
    #[tactic(auto, using(crate::proofs::NamedFilesLemmas::file_changes))]
    pub fn append(&mut self, name: &[u8], piece: &[u8]) -> Result<(), AllocError>
        ensures ok { OnOk result (self.new ≡ with_file self.old name.now (written_so_far (bytes_of self.old) name.now ++ piece.now)) }

        ensures unchanged { OnErr result (self.new ≡ self.old) }
    {
        match place_of(&self.list, name) {
            Some(place) => {
                let file = &mut self.list[place];
                file.extend(piece)?;
            }
            None => {
                let file = NamedBytes::new(self.alloc, name, piece)?;
                self.list.push(file)?;
            }
        }
        Ok(())
    }
}

// The place of the file with this name.
fn place_of(list: &[NamedBytes], name: &[u8]) -> Option<usize>
    ensures { MatchOption result (IsNewName list.now name.now) (IsPlaceOf list.now name.now) }
{
    list.iter().position(|file| file.is_named(name))
}
