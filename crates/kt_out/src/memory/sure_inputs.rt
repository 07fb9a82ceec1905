//! Input files in memory that never fail.
//! The rule: docs/ARCHITECTURE.md, "The outside".
ghost use Rattle.std.specs.Prelude.{◌≡◌, ◌-◌, ◌<◌, ◌≤◌, [], Ok, Some, length, min, ok_or, is_some, if◌then◌else◌, unwrap_or, OnErr, OnOk};
ghost use Rattle.std.specs.Option.{option_map};
ghost use Rattle.kt_kept_files.specs.Counts.{one_more};
ghost use Rattle.kt_out.specs.InputFiles.{InFile, ReadsAt};
ghost use Rattle.kt_kept_files.specs.NamedFiles.{bytes_of, with_file};
ghost use Rattle.kt_out.specs.OutputFiles.{Sets};

use crate::{Absent, Fault, Inputs};
use kt_kept_files::Files;
use std::alloc::{AllocError, Global};
use std::marker::Model;

/// Input files in memory that never fail. Contracts see the list of them, and the count of misses.
#[derive(Drop)]
pub struct SureInputs {
    files: Files,
    misses: u64,
}

impl Model for SureInputs {
    ghost use Rattle.kt_out.specs.MemoryObjects.{SureFiles};

    ghost Value = { SureFiles };

    ghost view = { λ s. record { files = s.files; misses = s.misses } };
}

impl SureInputs {
    /// No file.
    pub fn new(alloc: Global) -> Self
        ensures { result ≡ record { files = []; misses = 0 } }
    {
        SureInputs {
            files: Files::new(alloc),
            misses: 0,
        }
    }

    /// Makes the name stand for these bytes, whatever it stood for. An error is want of memory.
    #[tactic(auto, using(kt_kept_files::proofs::NamedFilesLemmas::file_names))]
    pub fn add(&mut self, name: &[u8], bytes: &[u8]) -> Result<(), AllocError>
        ensures ok { OnOk result (Sets (bytes_of self.old.files) name.now bytes.now (bytes_of self.new.files)) }
        ensures exact { OnOk result (self.new ≡ record self.old { files = with_file self.old.files name.now bytes.now }) }

        ensures unchanged { OnErr result (self.new ≡ self.old) }
    {
        self.files.put(name, bytes)
    }
}

impl Inputs for SureInputs {
    ghost state = { λ s. record { held = Some (bytes_of s.files); faults = 0; misses = s.misses } };

    fn faults(&self) -> u64 {
        0
    }

    fn misses(&self) -> u64 {
        self.misses
    }

    /// The size of a file; its only error is `Missing`.
    fn size(&mut self, name: &[u8]) -> Result<u64, Absent>
        ensures value { result ≡ ok_or (option_map length (bytes_of self.old.files name.now)) Absent.Missing }

        ensures counted { self.old.misses ≤ self.new.misses }
        ensures unchanged { self.new ≡ record self.old { misses = if is_some (bytes_of self.old.files name.now) then self.old.misses else one_more self.old.misses } }
    {
        match self.files.get(name) {
            Some(bytes) => Ok(bytes.len() as u64),
            None => {
                self.misses = self.misses.saturating_add(1);
                Err(Absent::Missing)
            }
        }
    }

    /// Fills the buffer, or gives all from the place to the file's end. It never fails.
    fn read_at(&mut self, name: &[u8], at: u64, buf: &mut [u8]) -> Result<usize, Fault>
        requires room { 0 < length buf.old }
        requires in_file { InFile (Some (bytes_of self.old.files)) name.now at }

        ensures moved { ReadsAt (Some (bytes_of self.old.files)) name.now at buf.old buf.new result }
        ensures exact { result ≡ Ok (min (length buf.old) (length (unwrap_or (bytes_of self.old.files name.now) []) - at)) }

        ensures unchanged { self.new ≡ self.old }
    {
        let Some(bytes) = self.files.get(name) else {
            unreachable!()
        };
        let rest = &bytes[at as usize..];
        let n = buf.len().min(rest.len());
        buf[..n].copy_from_slice(&rest[..n]);
        Ok(n)
    }
}
