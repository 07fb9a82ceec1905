//! The ids of events, as the records of a stream without a header.
//! The rules: docs/STREAMS.md, "Event ids".
ghost use Rattle.std.specs.Prelude.{◌≡◌, ◌+◌, ◌<◌, ◌≤◌, ◌^◌, [], length, IfOk};
ghost use Rattle.kt_stream.specs.EventIds.{event_form, event_shape};
ghost use Rattle.kt_stream.specs.Pairs.{IsId};
ghost use Rattle.kt_stream.specs.Reader.{Represents, IsRested};
ghost use Rattle.kt_stream.specs.Stream.{IsLawful};

use crate::entry::Reusable;
use crate::kind::{Shape, StreamKind};
use crate::number::u32_of;
use crate::pairs::id_fault;
use crate::read::{Misfit, Read};
use crate::reader::RecordReader;
use crate::unit::Entry;
use std::alloc::{AllocError, Global};

/// The length of an id in bytes.
const ID: usize = 4;

/// The id of an event.
#[derive(Clone, Copy, Drop)]
pub struct EventId {
    /// From 1 to 2,147,483,647.
    pub event: u32,
}

impl Reusable for EventId {
    fn blank(_alloc: Global) -> Self {
        EventId { event: 0 }
    }

    fn copy_from(&mut self, other: &Self) -> Result<(), AllocError> {
        *self = *other;
        Ok(())
    }
}

impl Entry for EventId {
    ghost form = { event_form };

    ghost IsGood = { λ shape samples entry. IsId entry.event };

    fn read_into(
        &mut self,
        _shape: Shape,
        _samples: u32,
        bytes: &[u8],
        at: u64,
    ) -> Result<Read<usize, Misfit>, AllocError> {
        if bytes.len() < ID {
            return Ok(Read::Short);
        }
        self.event = u32_of(bytes);
        match id_fault(at, self.event) {
            Some(misfit) => Ok(Read::Wrong(misfit)),
            None => Ok(Read::Got(ID)),
        }
    }

    fn laws() {}
}

/// A reader of the ids of events.
pub type EventReader = RecordReader<EventId>;

impl RecordReader<EventId> {
    /// A reader of the ids of events that was given no bytes. Asks for no memory.
    pub fn new(alloc: Global) -> Self
        ensures value { Represents EventId event_form [] [] result }
        ensures shape { result.shape ≡ event_shape }
        ensures rests { IsRested EventId event_form result }
    {
        RecordReader::of_shape(
            alloc,
            Shape {
                kind: StreamKind::Events,
                bins: 0,
            },
        )
    }
}
