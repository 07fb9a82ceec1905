//! The damage distributions of an event, where they stand.
//! The rule: docs/STREAMS.md, "Distributions".
ghost use Rattle.std.specs.Prelude.{◌≡◌, map, IfOk};

use kt_stream::{Bin, Cdf, Placed};
use std::alloc::{AllocError, Global};
use std::marker::Model;

/// A damage distribution, or what holds one.
pub trait CdfEntry {
    ghost use Rattle.kt_stream.specs.declared.entry.Cdf.{Cdf};

    /// The distribution.
    ghost cdf_of: { Self → Cdf };

    /// The distribution.
    fn cdf(&self) -> &Cdf
        ensures { result.now ≡ cdf_of self.now };
}

impl CdfEntry for Cdf {
    ghost cdf_of = { λ cdf. cdf };

    fn cdf(&self) -> &Cdf {
        self
    }
}

impl CdfEntry for Placed<Cdf> {
    ghost cdf_of = { λ placed. placed.entry };

    fn cdf(&self) -> &Cdf {
        &self.entry
    }
}

/// A damage distribution that stands elsewhere. Contracts see the distribution.
#[derive(Drop)]
pub struct HeldCdf<'a> {
    cdf: &'a Cdf,
}

impl<'a> Model for HeldCdf<'a> {
    ghost use Rattle.kt_stream.specs.declared.entry.Cdf.{Cdf};

    ghost Value = { Cdf };

    ghost view = { λ held. held.cdf.now };
}

impl<'a> HeldCdf<'a> {
    /// The bins.
    #[inline]
    pub(crate) fn bins(&self) -> &[Bin]
        ensures value { result.now ≡ self.now.bins }
    {
        self.cdf.bins.as_slice()
    }

    /// The areaperil's id.
    pub(crate) fn areaperil(&self) -> u32
        ensures value { result ≡ self.now.areaperil }
    {
        self.cdf.areaperil
    }

    /// The vulnerability's id.
    pub(crate) fn vulnerability(&self) -> u32
        ensures value { result ≡ self.now.vulnerability }
    {
        self.cdf.vulnerability
    }
}

/// The distributions of an event where they stand. An error is want of memory.
pub(crate) fn held_cdfs<T: CdfEntry>(
    alloc: Global,
    cdfs: &[T],
) -> Result<Vec<HeldCdf<'_>>, AllocError>
    ensures value { IfOk result (λ held. held.items ≡ map T.cdf_of cdfs.now) }
{
    let mut held = Vec::with_capacity(alloc, cdfs.len())?;
    for entry in cdfs {
        held.push(HeldCdf { cdf: entry.cdf() })?;
    }
    Ok(held)
}
