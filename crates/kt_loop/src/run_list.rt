//! The records of the open run, in memory that is used again.
//! The rules: docs/STREAMS.md, "Runs".
ghost use Rattle.std.specs.Prelude.{◌≡◌, [], ◌∷◌, ◌++◌, OnOk};

use kt_stream::{Placed, Reusable};
use std::alloc::{AllocError, Global};
use std::marker::Model;

/// The records of the open run. Those of the runs before it keep their memory, and are written over. Contracts see the list.
#[derive(Drop)]
pub(crate) struct RunList<E> {
    alloc: Global,
    records: Vec<Placed<E>>,
    used: usize,
}

impl<E> Model for RunList<E> {
    ghost use Rattle.std.specs.Prelude.{◌≤◌, List, length, take};
    ghost use Rattle.kt_stream.specs.declared.entry.Placed.{Placed};

    ghost Value = { List (Placed E) };

    ghost view = { λ run. take run.used run.records.items };

    ghost invariant = { λ run. run.used ≤ length run.records.items };
}

impl<E: Reusable> RunList<E> {
    /// No run is open. Asks for no memory.
    pub(crate) fn new(alloc: Global) -> Self
        ensures { result ≡ [] }
    {
        RunList {
            alloc,
            records: Vec::new(alloc),
            used: 0,
        }
    }

    /// Appends a record. An error is want of memory; nothing is said of the list then.
    pub(crate) fn push(&mut self, placed: &Placed<E>) -> Result<(), AllocError>
        ensures ok { OnOk result (self.new ≡ self.old ++ placed.now ∷ []) }
    {
        if self.used == self.records.len() {
            self.records.push(Placed::blank(self.alloc))?;
        }
        self.records[self.used].copy_from(placed)?;
        self.used += 1;
        Ok(())
    }

    /// Closes the run.
    pub(crate) fn clear(&mut self)
        ensures { self.new ≡ [] }
    {
        self.used = 0;
    }

    /// The records in order.
    pub(crate) fn as_slice(&self) -> &[Placed<E>]
        ensures value { result.now ≡ self.now }
    {
        &self.records[..self.used]
    }
}
