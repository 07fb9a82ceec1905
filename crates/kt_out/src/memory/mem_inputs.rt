//! Input files in memory that fail in the calls that they are told to.
//! The rule: docs/ARCHITECTURE.md, "The outside".
ghost use Rattle.std.specs.Prelude.{◌≡◌, ◌<◌, ◌≤◌, ◌++◌, ◌∷◌, [], Some, length, OnErr, OnOk};
ghost use Rattle.kt_out.specs.InputFiles.{InFile, ReadsAt};
ghost use Rattle.kt_kept_files.specs.Calls.{fails_next, no_calls};
ghost use Rattle.kt_out.specs.MemoryObjects.{IsReadOrMemory, after_read, after_size, read_or_fault, size_or_fault};
ghost use Rattle.kt_kept_files.specs.NamedFiles.{bytes_of, with_file};
ghost use Rattle.kt_out.specs.OutputFiles.{Sets};

use crate::{Absent, Fault, InputCall, Inputs};
use kt_kept_files::{Calls, Files, moved_bytes};
use kt_rec::Name;
use std::alloc::{AllocError, Global};
use std::marker::Model;

/// Input files in memory. They fail in listed calls, one call moves a limited number of bytes, and they keep which reads were asked for.
#[derive(Drop)]
pub struct MemInputs {
    alloc: Global,
    files: Files,
    misses: u64,
    calls: Calls,
    reads: Vec<InputCall>,
}

impl Model for MemInputs {
    ghost use Rattle.kt_out.specs.MemoryObjects.{MemoryInputs};

    ghost Value = { MemoryInputs };

    ghost view = { λ s. record { files = s.files; misses = s.misses; calls = s.calls; reads = s.reads.items } };
}

/// Keeps a read behind the others, whole or not at all. An error is want of memory.
fn keep(
    alloc: Global,
    reads: &mut Vec<InputCall>,
    name: &[u8],
    at: u64,
    len: u64,
) -> Result<(), AllocError>
    ensures ok { OnOk result (reads.new.items ≡ reads.old.items ++ record { name = name.now; at = at; len = len } ∷ []) }

    ensures unchanged { OnErr result (reads.new.items ≡ reads.old.items) }
{
    let mut kept = Name::new(alloc);
    kept.append(name)?;
    reads.push(InputCall {
        name: kept,
        at,
        len,
    })?;
    Ok(())
}

impl MemInputs {
    /// No file. The calls with the numbers in `fails`, counted from 1 over `size` and `read_at`,
    /// answer `Failed`, but for a `size` of a name that is not held; any other `read_at` moves at
    /// most `most` bytes, which is at least 1.
    pub fn new(alloc: Global, fails: Vec<u64>, most: u64) -> Self
        requires { 0 < most }

        ensures { result ≡ record { files = []; misses = 0; calls = no_calls fails.items most; reads = [] } }
    {
        MemInputs {
            alloc,
            files: Files::new(alloc),
            misses: 0,
            calls: Calls::new(fails, most),
            reads: Vec::new(alloc),
        }
    }

    /// Makes the name stand for these bytes, whatever it stood for. An error is want of memory.
    #[tactic(auto, using(kt_kept_files::proofs::NamedFilesLemmas::file_names))]
    pub fn add(&mut self, name: &[u8], bytes: &[u8]) -> Result<(), AllocError>
        ensures ok { OnOk result (Sets (bytes_of self.old.files) name.now bytes.now (bytes_of self.new.files)) }
        ensures exact { OnOk result (self.new ≡ record self.old { files = with_file self.old.files name.now bytes.now }) }

        ensures unchanged { OnErr result (self.new ≡ self.old) }
    {
        self.files.put(name, bytes)
    }

    /// The calls of `read_at` so far that have moved bytes, in order.
    pub fn calls(&self) -> &[InputCall]
        ensures value { result.now ≡ self.now.reads }
    {
        &self.reads
    }
}

impl Inputs for MemInputs {
    ghost state = { λ s. record { held = Some (bytes_of s.files); faults = s.calls.failed; misses = s.misses } };

    fn faults(&self) -> u64 {
        self.calls.failed()
    }

    fn misses(&self) -> u64 {
        self.misses
    }

    /// The size of a file. `Missing` comes before `Failed`, and a miss is no fault.
    fn size(&mut self, name: &[u8]) -> Result<u64, Absent>
        ensures value { result ≡ size_or_fault (bytes_of self.old.files name.now) (fails_next self.old.calls) }

        ensures counted { (self.old.calls.failed ≤ self.new.calls.failed) × (self.old.misses ≤ self.new.misses) }
        ensures calls { self.new ≡ after_size self.old name.now }
    {
        let Some(bytes) = self.files.get(name) else {
            self.calls.pass_next();
            self.misses = self.misses.saturating_add(1);
            return Err(Absent::Missing);
        };
        if self.calls.next_fails() {
            return Err(Absent::Failed);
        }
        Ok(bytes.len() as u64)
    }

    /// Reads from a place on. It fails exactly in the calls that are listed. Any other is kept for `calls`, or, where there is no
    /// memory for that, moves nothing and is not kept.
    fn read_at(&mut self, name: &[u8], at: u64, buf: &mut [u8]) -> Result<usize, Fault>
        requires room { 0 < length buf.old }
        requires in_file { InFile (Some (bytes_of self.old.files)) name.now at }

        ensures moved { ReadsAt (Some (bytes_of self.old.files)) name.now at buf.old buf.new result }
        ensures exact { IsReadOrMemory (read_or_fault (bytes_of self.old.files name.now) at (length buf.old) self.old.calls) result }

        ensures unchanged { OnErr result (buf.new ≡ buf.old) }
        ensures counted { self.old.calls.failed ≤ self.new.calls.failed }
        ensures calls { self.new ≡ after_read self.old name.now at (length buf.old) result }
    {
        if self.calls.next_fails() {
            return Err(Fault::Failed);
        }
        keep(self.alloc, &mut self.reads, name, at, buf.len() as u64)?;
        let Some(bytes) = self.files.get(name) else {
            unreachable!()
        };
        let rest = &bytes[at as usize..];
        let n = moved_bytes(buf.len().min(rest.len()), self.calls.most());
        buf[..n].copy_from_slice(&rest[..n]);
        Ok(n)
    }
}
