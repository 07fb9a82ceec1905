//! Where the records of an event's losses go: into lanes, or into the bytes of a stream.
//! The rules: docs/CALCULATION.md, "Coverage cut"; docs/STREAMS.md, "Records".
ghost use Rattle.std.specs.Prelude.{◌≡◌, ◌+◌, ◌*◌, ◌≤◌, ◌++◌, [], ◌∷◌, length, drop, slice_index, IfOk, OnOk, OnErr};
ghost use Rattle.std.specs.List.{filter_map, flat_map};
ghost use Rattle.kt_gul.specs.GroundUp.{StandsInFront, pairs_of, record_with};

use crate::draw::Draw;
use crate::pairs::write_row;
use kt_money::Bytes;
use kt_runs::LossLanes;
use kt_stream::loss_front;
use std::alloc::AllocError;
use std::marker::Model;

/// The bytes of the pairs of a record with 1,000 samples, with the end pair.
pub(crate) const MOST_PAIRS: usize = 12_036;

/// What takes the losses of items as records.
pub trait Exit {
    ghost use Rattle.std.specs.Prelude.{ℕ, List};
    ghost use Rattle.kt_stream.specs.declared.entry.LossRecord.{LossRecord};

    /// What it is made of.
    ghost Piece: { Type 0 };

    /// The pieces that it has.
    ghost pieces: { Self → List Piece };

    /// The pieces of a record.
    ghost spelled: { LossRecord → List Piece };

    /// Whether it takes losses with so many samples.
    ghost takes: { ℕ → Self → Type 0 };

    /// Appends the record of an item's losses by their places, where one is above 0. An error
    /// is want of memory; the pieces that it had stay in front.
    fn put(&mut self, draw: Draw, id: u32, row: &[u64]) -> Result<(), AllocError>
        requires samples { draw.samples ≤ 1000 }
        requires row { length row.now ≡ draw.samples + 2 }
        requires takes { takes draw.samples self.old }
        ensures takes { OnOk result (takes draw.samples self.new) }
        ensures ok { OnOk result (pieces self.new ≡ pieces self.old ++ flat_map spelled (filter_map (record_with draw.event id) (pairs_of (λ place. slice_index row.now place) draw.samples ∷ []))) }

        ensures front { OnErr result (StandsInFront (pieces self.old) (pieces self.new)) };
}

/// The losses of the mean and of the samples, which stand behind the deviation.
fn lane_of(row: &[u64]) -> &[u64]
    requires { 1 ≤ length row.now }
    ensures value { result.now ≡ drop 1 row.now }
{
    &row[1..]
}

impl Exit for LossLanes {
    ghost use Rattle.std.specs.Prelude.{[], ◌≡◌, ◌+◌, ◌∷◌};
    ghost use Rattle.kt_stream.specs.declared.entry.LossRecord.{LossRecord};

    ghost Piece = { LossRecord };

    ghost pieces = { λ lanes. lanes.records };

    ghost spelled = { λ entry. entry ∷ [] };

    ghost takes = { λ samples lanes. lanes.rows ≡ samples + 1 };

    fn put(&mut self, draw: Draw, id: u32, row: &[u64]) -> Result<(), AllocError> {
        self.put_with(draw.event, id, row[0], lane_of(row))
    }
}

/// The bytes of a stream, which get the records of losses. Contracts see the bytes.
#[derive(Drop)]
pub struct Written {
    out: Bytes,
    /// The bytes of one record's pairs.
    room: Vec<u8>,
}

impl Model for Written {
    ghost use Rattle.std.specs.Prelude.{◌≡◌, ℕ, List, length};

    ghost Value = { List ℕ };

    ghost view = { λ written. written.out };

    ghost invariant = { λ written. length written.room.items ≡ 12036 };
}

impl Written {
    /// Behind these bytes, with this room for the bytes of one record's pairs.
    pub(crate) fn new(out: Bytes, room: Vec<u8>) -> Written
        requires room { length room.items ≡ 12036 }
        ensures value { result ≡ out }
    {
        Written { out, room }
    }

    /// The bytes.
    pub(crate) fn into_bytes(self) -> Bytes
        ensures value { result ≡ self }
    {
        self.out
    }
}

impl Exit for Written {
    ghost use Rattle.std.specs.Prelude.{ℕ};
    ghost use Rattle.kt_stream.specs.Losses.{loss_bytes};

    ghost Piece = { ℕ };

    ghost pieces = { λ bytes. bytes };

    ghost spelled = { loss_bytes };

    ghost takes = { λ samples bytes. Unit {0} };

    fn put(&mut self, draw: Draw, id: u32, row: &[u64]) -> Result<(), AllocError> {
        let used = write_row(self.room.as_mut_slice(), row, draw.samples);
        if used == 0 {
            return Ok(());
        }
        self.out.append(&loss_front(draw.event, id))?;
        self.out.append(&self.room[..used])
    }
}
