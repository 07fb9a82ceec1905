//! Where the distributions of an event go: into a list, or into the bytes of a stream.
//! The rule: docs/STREAMS.md, "Distributions".
ghost use Rattle.std.specs.Prelude.{◌≡◌, ◌++◌, OnErr, OnOk};

use kt_money::Bytes;
use kt_stream::{Cdf, Reusable, put_cdf};
use std::alloc::AllocError;

/// What takes distributions.
pub(crate) trait Exit {
    ghost use Rattle.std.specs.Prelude.{List};
    ghost use Rattle.kt_stream.specs.declared.entry.Cdf.{Cdf};

    /// What it is made of.
    ghost Piece: { Type 0 };

    /// The pieces that it has.
    ghost pieces: { Self → List Piece };

    /// The pieces of a distribution.
    ghost spelled: { Cdf → List Piece };

    /// Appends a distribution. An error is want of memory, and nothing is appended then.
    fn put(&mut self, cdf: &Cdf) -> Result<(), AllocError>
        ensures ok { OnOk result (pieces self.new ≡ pieces self.old ++ spelled cdf.now) }
        ensures unchanged { OnErr result (pieces self.new ≡ pieces self.old) };
}

impl Exit for Vec<Cdf> {
    ghost use Rattle.std.specs.Prelude.{[], ◌∷◌};
    ghost use Rattle.kt_stream.specs.declared.entry.Cdf.{Cdf};

    ghost Piece = { Cdf };

    ghost pieces = { λ records. records.items };

    ghost spelled = { λ cdf. cdf ∷ [] };

    fn put(&mut self, cdf: &Cdf) -> Result<(), AllocError> {
        let mut own = Cdf::blank(*self.allocator());
        own.copy_from(cdf)?;
        self.push(own)?;
        Ok(())
    }
}

impl Exit for Bytes {
    ghost use Rattle.std.specs.Prelude.{ℕ};
    ghost use Rattle.kt_stream.specs.Bins.{cdf_bytes};

    ghost Piece = { ℕ };

    ghost pieces = { λ bytes. bytes };

    ghost spelled = { cdf_bytes };

    fn put(&mut self, cdf: &Cdf) -> Result<(), AllocError> {
        put_cdf(self, cdf)
    }
}
