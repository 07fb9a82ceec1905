//! The kinds of stream that are joined.
//! The rules: docs/STREAMS.md, "Headers" and "Records".
ghost use Rattle.std.specs.Prelude.{◌≡◌, [], None};
ghost use Rattle.kt_stream.specs.declared.kind.Shape.{Shape};
ghost use Rattle.kt_stream.specs.Reader.{Represents, IsRested};

use kt_stream::{
    Cdf, CdfReader, Entry, LossReader, LossRecord, RecordReader, StreamKind, SummaryReader,
    SummaryRecord,
};
use std::alloc::Global;

/// The most bins of a distribution.
const MOST_BINS: u32 = 1000;

/// A kind of stream: how its records are read.
pub trait JoinedKind: Copy {
    /// Its records.
    type Record: Entry;

    /// What a reader of it is told.
    ghost shape: { Shape };

    /// The kind.
    fn kind(self) -> StreamKind
        ensures { result ≡ shape.kind };

    /// A reader that was given no bytes, and has no header yet.
    fn reader(self, alloc: Global) -> RecordReader<Self::Record>
        ensures value { Represents Self.Record Self.Record.form [] [] result }
        ensures shape { result.shape ≡ shape }
        ensures headless { result.head ≡ None }
        ensures rests { IsRested Self.Record Self.Record.form result };
}

/// Streams of damage distributions.
#[derive(Clone, Copy)]
pub(crate) struct CdfStreams;

/// Streams of ground-up losses.
#[derive(Clone, Copy)]
pub(crate) struct GulStreams;

/// Streams of losses after terms.
#[derive(Clone, Copy)]
pub(crate) struct LossStreams;

/// Streams of the losses of summaries.
#[derive(Clone, Copy)]
pub(crate) struct SummaryStreams;

impl JoinedKind for CdfStreams {
    ghost use Rattle.kt_stream.specs.Bins.{cdf_shape};

    type Record = Cdf;

    ghost shape = { cdf_shape 1000 };

    fn kind(self) -> StreamKind {
        StreamKind::Cdf
    }

    fn reader(self, alloc: Global) -> RecordReader<Cdf> {
        CdfReader::new(alloc, MOST_BINS)
    }
}

impl JoinedKind for GulStreams {
    ghost use Rattle.kt_stream.specs.declared.kind.StreamKind.TheVariants.{Gul};
    ghost use Rattle.kt_stream.specs.Losses.{loss_shape};

    type Record = LossRecord;

    ghost shape = { loss_shape Gul };

    fn kind(self) -> StreamKind {
        StreamKind::Gul
    }

    fn reader(self, alloc: Global) -> RecordReader<LossRecord> {
        LossReader::new(alloc, StreamKind::Gul)
    }
}

impl JoinedKind for LossStreams {
    ghost use Rattle.kt_stream.specs.declared.kind.StreamKind.TheVariants.{Loss};
    ghost use Rattle.kt_stream.specs.Losses.{loss_shape};

    type Record = LossRecord;

    ghost shape = { loss_shape Loss };

    fn kind(self) -> StreamKind {
        StreamKind::Loss
    }

    fn reader(self, alloc: Global) -> RecordReader<LossRecord> {
        LossReader::new(alloc, StreamKind::Loss)
    }
}

impl JoinedKind for SummaryStreams {
    ghost use Rattle.kt_stream.specs.Summary.{summary_shape};

    type Record = SummaryRecord;

    ghost shape = { summary_shape };

    fn kind(self) -> StreamKind {
        StreamKind::Summary
    }

    fn reader(self, alloc: Global) -> RecordReader<SummaryRecord> {
        SummaryReader::new(alloc)
    }
}
