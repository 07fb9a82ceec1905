//! Ids as a stream, written in blocks.
//! The rules: docs/COMMANDS.md, "eve".
ghost use Rattle.std.specs.Prelude.{◌≡◌, ◌++◌, OnOk, min};
ghost use Rattle.std.specs.List.{flat_map};
ghost use Rattle.byteorder.specs.Endian.{little_bytes};
ghost use Rattle.kt_out.specs.Writing.{WritesAll};

use crate::pieces::{Pieces, write_pieces};
use kt_money::Bytes;
use kt_out::{Fault, Sink};
use std::alloc::{AllocError, Global};

/// The ids that are made at once.
const IDS: usize = 1_024;

/// Ids, four bytes each.
#[derive(Clone, Copy)]
struct Ids<'a> {
    ids: &'a [u32],
}

impl<'a> Pieces for Ids<'a> {
    ghost use Rattle.std.specs.Prelude.{⊤, ◌/◌, ◌+◌, ◌*◌, drop, length};
    ghost use Rattle.std.specs.List.{flat_map};
    ghost use Rattle.byteorder.specs.Endian.{little_bytes};

    ghost is_ready = { λ _. ⊤ };

    ghost pieces = { λ ids. length ids.ids.now / 1024 + 1 };

    ghost rest = { λ ids piece. flat_map (little_bytes 4) (drop (piece * 1024) ids.ids.now) };

    fn count(&self) -> usize {
        self.ids.len() / IDS + 1
    }

    fn push(&self, index: usize, out: &mut Bytes) -> Result<(), Fault> {
        let behind = &self.ids[index * IDS..];
        match append_ids(out, &behind[..ids_of(behind.len())]) {
            Ok(()) => Ok(()),
            Err(_) => Err(Fault::OutOfMemory),
        }
    }
}

// How many ids are made at once, where so many are left.
fn ids_of(left: usize) -> usize
    ensures { result ≡ min 1024 left }
{
    if left < IDS { left } else { IDS }
}

// Appends ids. The error is want of memory.
fn append_ids(out: &mut Bytes, ids: &[u32]) -> Result<(), AllocError>
    ensures { OnOk result (out.new ≡ out.old ++ flat_map (little_bytes 4) ids.now) }
{
    for id in ids {
        out.append(&id.to_le_bytes())?;
    }
    Ok(())
}

/// Writes ids, four bytes each with the lowest first, a block of 64 KiB at a time. After a refusal the sink has taken some
/// front of them, maybe nothing. An error is a fault of the sink, or want of memory for a block.
pub fn write_ids<K: Sink>(alloc: Global, ids: &[u32], sink: &mut K) -> Result<(), Fault>
    ensures { WritesAll (K.state sink.old) (K.state sink.new) (flat_map (little_bytes 4) ids.now) result }
{
    write_pieces(&Ids { ids }, Bytes::new(alloc), sink)
}
