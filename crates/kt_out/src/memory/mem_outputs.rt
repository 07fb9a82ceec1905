//! Output files in memory that fail in the calls that they are told to.
//! The rule: docs/ARCHITECTURE.md, "The outside".
ghost use Rattle.std.specs.Prelude.{◌≡◌, ◌↔◌, ◌<◌, ◌≤◌, ◌++◌, [], Some, length, min, slice_get, take, IfOk, IsErrOf, IsTrue, OnErr, OnOk};
ghost use Rattle.std.specs.Option.{option_copied, option_map};
ghost use Rattle.kt_kept_files.specs.Calls.{after_call, fails_next, no_calls};
ghost use Rattle.kt_out.specs.MemoryObjects.{outputs_state};
ghost use Rattle.kt_kept_files.specs.NamedFiles.{bytes_of, with_file, HaveDistinctNames};
ghost use Rattle.kt_out.specs.OutputFiles.{Appends, Creates, CountsOutput, written_so_far};

use crate::{Fault, Outputs};
use kt_kept_files::{Calls, Files, moved_bytes};
use std::alloc::Global;
use std::marker::Model;

/// Output files in memory. They fail in listed calls, and one call moves a limited number of bytes. Contracts see the list
/// of them, in which no name comes twice, and the calls.
#[derive(Drop)]
pub struct MemOutputs {
    files: Files,
    calls: Calls,
}

impl Model for MemOutputs {
    ghost use Rattle.kt_out.specs.MemoryObjects.{MemoryOutputs};

    ghost Value = { MemoryOutputs };

    ghost view = { λ s. record { files = s.files; calls = s.calls } };
}

impl MemOutputs {
    /// No file. The calls with the numbers in `fails`, counted from 1 over `create` and `append`, answer `Failed`; any other
    /// `append` moves at most `most` bytes, which is at least 1.
    pub fn new(alloc: Global, fails: Vec<u64>, most: u64) -> Self
        requires { 0 < most }

        ensures { result ≡ record { files = []; calls = no_calls fails.items most } }
    {
        MemOutputs {
            files: Files::new(alloc),
            calls: Calls::new(fails, most),
        }
    }

    /// The bytes that the name stands for, or `None` where it was neither created nor appended to.
    pub fn get(&self, name: &[u8]) -> Option<&[u8]>
        ensures { option_copied result ≡ bytes_of self.now.files name.now }
    {
        self.files.get(name)
    }

    /// How many names there are.
    pub fn count(&self) -> u64
        ensures value { result ≡ length self.now.files }
        ensures distinct { HaveDistinctNames self.now.files }
    {
        self.files.count()
    }

    /// The n-th name, counted from 0 in the order in which they came.
    pub fn name(&self, n: u64) -> &[u8]
        requires { n < length self.now.files }

        ensures { option_map (λ file. file.name) (slice_get self.now.files n) ≡ Some result.now }
    {
        self.files.name(n)
    }
}

impl Outputs for MemOutputs {
    ghost state = { λ s. outputs_state s };

    fn faults(&self) -> u64 {
        self.calls.failed()
    }

    /// Makes the name stand for no bytes. It fails exactly in the calls that are listed, and a refused call changes no file.
    fn create(&mut self, name: &[u8]) -> Result<(), Fault>
        ensures ok { Creates (outputs_state self.old).written (outputs_state self.new).written name.now result }
        ensures exact { OnOk result (self.new.files ≡ with_file self.old.files name.now []) }

        // It fails exactly in the calls that are listed.
        ensures refused { IsErrOf result Fault.Failed ↔ IsTrue (fails_next self.old.calls) }

        ensures unchanged { OnErr result (self.new.files ≡ self.old.files) }
        ensures counts { CountsOutput self.old.calls.failed self.new.calls.failed result }
        ensures counted { self.old.calls.failed ≤ self.new.calls.failed }
        ensures calls { self.new.calls ≡ after_call self.old.calls }
    {
        if self.calls.next_fails() {
            return Err(Fault::Failed);
        }
        Ok(self.files.put(name, &[])?)
    }

    /// Adds the first bytes of the piece, as many as one call may move.
    fn append(&mut self, name: &[u8], piece: &[u8]) -> Result<usize, Fault>
        requires { 0 < length piece.now }

        ensures moved { Appends (outputs_state self.old).written (outputs_state self.new).written name.now piece.now result }
        ensures within { IfOk result (λ n. (0 < n) × (n ≤ length piece.now)) }
        ensures ok { IfOk result (λ n. n ≡ min (length piece.now) self.old.calls.most) }
        ensures exact { IfOk result (λ n. self.new.files ≡ with_file self.old.files name.now (written_so_far (bytes_of self.old.files) name.now ++ take n piece.now)) }

        // It fails exactly in the calls that are listed.
        ensures refused { IsErrOf result Fault.Failed ↔ IsTrue (fails_next self.old.calls) }

        ensures unchanged { OnErr result (self.new.files ≡ self.old.files) }
        ensures counts { CountsOutput self.old.calls.failed self.new.calls.failed result }
        ensures counted { self.old.calls.failed ≤ self.new.calls.failed }
        ensures calls { self.new.calls ≡ after_call self.old.calls }
    {
        if self.calls.next_fails() {
            return Err(Fault::Failed);
        }
        let n = moved_bytes(piece.len(), self.calls.most());
        self.files.append(name, &piece[..n])?;
        Ok(n)
    }
}
