//! One file of which the lines and the bytes are counted: its name and its counts.
//! The rule: docs/GENERATOR.md, "What is shown of a run".
ghost use Rattle.std.specs.Prelude.{◌≡◌, ◌++◌, [], IfOk, OnErr, OnOk};
ghost use Rattle.std.specs.Str.{bytes_eq};
ghost use Rattle.kt_counted.specs.Counts.{counts_of};

use crate::counts::Counts;
use crate::history::History;
use std::alloc::{AllocError, Global};
use std::marker::Model;

/// A name, and the counts of the bytes that it stands for. Contracts see these bytes.
#[derive(Drop)]
pub(crate) struct CountedFile {
    name: Vec<u8>,
    counts: Counts,
    history: History,
}

impl Model for CountedFile {
    ghost use Rattle.std.specs.Prelude.{◌≡◌};
    ghost use Rattle.kt_counted.specs.Counts.{counts_of};
    ghost use Rattle.kt_out.specs.NamedFiles.{File};

    ghost Value = { File };

    ghost view = { λ f. record { name = f.name.items; bytes = f.history.bytes } };

    ghost invariant = { λ f. f.counts ≡ counts_of f.history.bytes };
}

impl CountedFile {
    /// A file with this name and no bytes. An error is want of memory.
    pub fn new(alloc: Global, name: &[u8]) -> Result<Self, AllocError>
        ensures { IfOk result (λ file. file ≡ record { name = name.now; bytes = [] }) }
    {
        Ok(CountedFile {
            name: name.to_vec(alloc)?,
            counts: Counts::new(),
            history: History::new(),
        })
    }

    /// Whether it has this name.
    pub fn is_named(&self, name: &[u8]) -> bool
        ensures { result ≡ bytes_eq self.now.name name.now }
    {
        self.name.as_slice() == name
    }

    /// The counts of its bytes.
    pub fn counts(&self) -> Counts
        ensures { result ≡ counts_of self.now.bytes }
    {
        self.counts
    }

    /// Has no bytes in the place of its own.
    pub fn clear(&mut self)
        ensures { self.new ≡ record self.old { bytes = [] } }
    {
        self.counts = Counts::new();
        self.history = History::new();
    }

    /// Adds the piece behind its bytes. An error is a count that is no `u64`.
    pub fn extend(&mut self, piece: &[u8]) -> Result<(), AllocError>
        ensures ok { OnOk result (self.new ≡ record self.old { bytes = self.old.bytes ++ piece.now }) }

        ensures unchanged { OnErr result (self.new ≡ self.old) }
    {
        let counts = self.counts.and(piece).ok_or(AllocError)?;
        self.counts = counts;
        self.history = self.history.and(piece);
        Ok(())
    }
}
