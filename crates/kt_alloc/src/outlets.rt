//! Outputs that have a loss, with their places in a row of shares.
//! The rule: docs/FINANCIAL_MODULE.md, "Insured losses".
ghost use Rattle.std.specs.Prelude.{◌≡◌, ℕ, true, map, IfOk};
ghost use Rattle.std.specs.List.Sorted.{IsNonDecreasingBy};
ghost use Rattle.kt_rec.specs.Rising.{IsRising};
ghost use Rattle.kt_alloc.specs.Outlets.{AreFirsts};

use kt_index::{ByKey, Keyed};
use std::alloc::{AllocError, Global};

/// An output that has a loss, and its place in a row of shares.
#[derive(Clone, Copy, Drop)]
pub(crate) struct Outlet {
    /// The output.
    pub(crate) id: u32,
    /// Its place, counted from 0.
    pub(crate) place: usize,
}

impl Keyed for Outlet {
    ghost key_of = { λ outlet. outlet.id };

    fn key(&self) -> u64 {
        u64::from(self.id)
    }
}

/// Of outlets by rising id the first of each id.
fn firsts(alloc: Global, sorted: &[Outlet]) -> Result<Vec<Outlet>, AllocError>
    requires rising { IsNonDecreasingBy (λ outlet. outlet.id) sorted.now }
    ensures value { IfOk result (λ kept. AreFirsts sorted.now kept.items) }
{
    let mut kept = Vec::with_capacity(alloc, sorted.len())?;
    let mut next: u64 = 0;
    for outlet in sorted {
        let id = u64::from(outlet.id);
        if next <= id {
            kept.push(*outlet)?;
            next = id + 1;
        }
    }
    Ok(kept)
}

/// Whether the ids of outlets rise, each once.
fn rise(outlets: &[Outlet]) -> bool
    ensures rises { result ≡ true → IsRising (map (λ outlet. outlet.id) outlets.now) }
{
    let mut next: u64 = 0;
    for outlet in outlets {
        let id = u64::from(outlet.id);
        if id < next {
            return false;
        }
        next = id + 1;
    }
    true
}

/// The first outlet of each id, by rising id. An error is want of memory.
pub(crate) fn first_outlets(alloc: Global, outlets: Vec<Outlet>) -> Result<Vec<Outlet>, AllocError>
    ensures value { IfOk result (λ kept. AreFirsts outlets.items kept.items) }
{
    if rise(&outlets) {
        return Ok(outlets);
    }
    let sorted = ByKey::of_rows(outlets)?;
    let kept = firsts(alloc, sorted.as_slice())?;
    Ok(kept)
}
