//! What the sidx of a pair says of its loss.
//! The rules: docs/STREAMS.md, "Records".
ghost use Rattle.std.specs.Prelude.{◌≡◌, ◌↔◌, IsTrue};
ghost use Rattle.kt_elt.specs.declared.sidx.Role.TheVariants.{Sample};
ghost use Rattle.kt_elt.specs.Sidx.{role_of};

use kt_stream::Pair;

/// What the loss of a pair is.
#[derive(Clone, Copy)]
pub(crate) enum Role {
    /// The mean that was computed from the distributions: sidx -1.
    Mean,
    /// The standard deviation that was computed from them: sidx -2.
    Deviation,
    /// A sampled loss: sidx 1 and up.
    Sample,
    /// No loss of these tables: any other sidx.
    Other,
}

impl Role {
    /// Whether the loss of a pair is a sampled one.
    pub(crate) fn is_sampled(pair: &Pair) -> bool
        ensures value { IsTrue result ↔ (role_of pair.now.sidx ≡ Sample) }
    {
        pair.sidx >= 1
    }

    /// What the loss of a pair is, by its sidx.
    pub(crate) fn of_pair(pair: &Pair) -> Self
        ensures value { result ≡ role_of pair.now.sidx }
    {
        match pair.sidx {
            -1 => Role::Mean,
            -2 => Role::Deviation,
            1.. => Role::Sample,
            _ => Role::Other,
        }
    }
}
