//! One file in memory: a name and its bytes.
//! The rule: docs/ARCHITECTURE.md, "The outside".
ghost use Rattle.std.specs.Prelude.{◌≡◌, ◌++◌, IfOk, OnErr, OnOk};
ghost use Rattle.std.specs.Str.{bytes_eq};

use std::alloc::{AllocError, Global};
use std::marker::Model;

/// A name and the bytes that it stands for.
#[derive(Drop)]
pub struct NamedBytes {
    name: Vec<u8>,
    bytes: Vec<u8>,
}

impl Model for NamedBytes {
    ghost use Rattle.kt_kept_files.specs.NamedFiles.{File};

    ghost Value = { File };

    ghost view = { λ f. record { name = f.name.items; bytes = f.bytes.items } };
}

impl NamedBytes {
    /// A file with this name and these bytes. An error is want of memory.
    pub fn new(alloc: Global, name: &[u8], bytes: &[u8]) -> Result<Self, AllocError>
        ensures { IfOk result (λ file. file ≡ record { name = name.now; bytes = bytes.now }) }
    {
        Ok(NamedBytes {
            name: name.to_vec(alloc)?,
            bytes: bytes.to_vec(alloc)?,
        })
    }

    /// Whether it has this name.
    pub fn is_named(&self, name: &[u8]) -> bool
        ensures { result ≡ bytes_eq self.now.name name.now }
    {
        self.name.as_slice() == name
    }

    /// Its name.
    pub fn name(&self) -> &[u8]
        ensures { result.now ≡ self.now.name }
    {
        &self.name
    }

    /// Its bytes.
    pub fn bytes(&self) -> &[u8]
        ensures { result.now ≡ self.now.bytes }
    {
        &self.bytes
    }

    /// Has these bytes in the place of its own.
    pub fn replace(&mut self, bytes: Vec<u8>)
        ensures { self.new ≡ record self.old { bytes = bytes.items } }
    {
        self.bytes = bytes;
    }

    /// Adds the piece behind its bytes. An error is want of memory.
    pub fn extend(&mut self, piece: &[u8]) -> Result<(), AllocError>
        ensures ok { OnOk result (self.new ≡ record self.old { bytes = self.old.bytes ++ piece.now }) }

        ensures unchanged { OnErr result (self.new ≡ self.old) }
    {
        self.bytes.extend_from_slice(piece)
    }
}
