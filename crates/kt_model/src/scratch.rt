//! Memory for the distributions of an event, which is used again from event to event.
//! The rule: docs/CALCULATION.md, "Damage distribution".
ghost use Rattle.std.specs.Prelude.{◌≡◌, length, OnOk};
ghost use Rattle.std.specs.List.{sum};

use kt_stream::{Cdf, Reusable};
use std::alloc::{AllocError, Global};

/// For so many vulnerabilities and intensities the place of their damage is kept.
pub(crate) const PLACES: usize = 512;

/// Memory for the distributions of an event. No contract speaks of what it holds from event to event.
#[derive(Drop)]
pub struct Scratch {
    /// The chance of each damage bin.
    pub(crate) chances: Vec<u64>,
    /// Places in the table of damage, to be looked at first.
    pub(crate) places: Vec<usize>,
    /// The distribution that was made last.
    pub(crate) cdf: Cdf,
}

impl Scratch {
    /// No memory yet.
    pub fn new(alloc: Global) -> Scratch {
        Scratch {
            chances: Vec::new(alloc),
            places: Vec::new(alloc),
            cdf: Cdf::blank(alloc),
        }
    }

    /// Makes room for so many damage bins, whose chances are all 0.
    pub(crate) fn clear(&mut self, bins: usize) -> Result<(), AllocError>
        ensures bins { OnOk result (length self.new.chances.items ≡ bins) }
        ensures none { OnOk result (sum self.new.chances.items ≡ 0) }
        ensures places { OnOk result (length self.new.places.items ≡ 512) }
    {
        self.chances.clear();
        self.chances.resize(bins, 0)?;
        self.places.resize(PLACES, 0)?;
        Ok(())
    }
}
