//! The kinds of stream, and what a reader is told of one.
//! The rules: docs/STREAMS.md, "Headers".
ghost use Rattle.std.specs.Prelude.{◌≡◌};
ghost use Rattle.kt_stream.specs.Header.{id_of};

/// The kind of a stream.
#[derive(Clone, Copy)]
pub enum StreamKind {
    /// Damage distributions.
    Cdf,
    /// Ground-up losses of items.
    Gul,
    /// Losses of policies or items after terms.
    Loss,
    /// Losses of summary ids.
    Summary,
    /// The ids of events alone, behind no header.
    Events,
}

impl StreamKind {
    /// The first byte of a stream of this kind; one that no stream has, where the kind has no header.
    pub(crate) fn id(self) -> u8
        ensures value { result ≡ id_of self }
    {
        match self {
            StreamKind::Cdf => 0,
            StreamKind::Gul => 1,
            StreamKind::Loss => 2,
            StreamKind::Summary => 3,
            StreamKind::Events => 255,
        }
    }
}

/// The header of a stream.
#[derive(Clone, Copy)]
pub struct Head {
    /// The number of samples, from 1 to 1,000; 0 where the kind has no such field.
    pub samples: u32,
    /// The summary set, from 1 to 9; 0 where the kind has no such field.
    pub set: u32,
}

/// What a reader is told of its stream before the first byte.
#[derive(Clone, Copy)]
pub struct Shape {
    /// The kind that the header has to name.
    pub kind: StreamKind,
    /// The most bins that a record may have; 0 where the kind has no bins.
    pub bins: u32,
}
