//! Input files of which one says another size than it has.
//! The language: README.md, "Settings".
//! The rule: docs/PROVING.md, "Tests".
ghost use Rattle.std.specs.Prelude.{None};

use kt_out::{Absent, Fault, Inputs, MemInputs};

/// Input files of which one says another size than it has. A read behind its bytes fails, as in a file
/// that has become shorter.
#[derive(Drop)]
pub struct SaidSize<'a> {
    files: MemInputs,
    name: &'a [u8],
    size: u64,
    failed: u64,
    missed: u64,
}

impl<'a> SaidSize<'a> {
    /// The file of this name says this size.
    pub fn new(files: MemInputs, name: &'a [u8], size: u64) -> Self {
        SaidSize {
            files,
            name,
            size,
            failed: 0,
            missed: 0,
        }
    }
}

impl Inputs for SaidSize<'_> {
    ghost state = { λ s. record { held = None; faults = s.failed; misses = s.missed } };

    fn faults(&self) -> u64 {
        self.failed
    }

    fn misses(&self) -> u64 {
        self.missed
    }

    fn size(&mut self, name: &[u8]) -> Result<u64, Absent> {
        match self.files.size(name) {
            Ok(_) if name == self.name => Ok(self.size),
            Ok(size) => Ok(size),
            Err(Absent::Missing) => {
                self.missed = self.missed.saturating_add(1);
                Err(Absent::Missing)
            }
            Err(_) => {
                self.failed = self.failed.saturating_add(1);
                Err(Absent::Failed)
            }
        }
    }

    fn read_at(&mut self, name: &[u8], at: u64, buf: &mut [u8]) -> Result<usize, Fault> {
        match self.files.size(name) {
            Ok(size) if at < size => match self.files.read_at(name, at, buf) {
                Ok(read) => return Ok(read),
                Err(_) => {}
            },
            _ => {}
        }
        self.failed = self.failed.saturating_add(1);
        Err(Fault::Failed)
    }
}
