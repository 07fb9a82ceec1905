//! What a row names of another table, or of a programme.
//! The rules: docs/CHECKS.md, "Coverages of items", "Profiles of terms", "What outputs are for", "Items and outputs of
//! summaries".
ghost use Rattle.std.specs.Prelude.{◌≡◌, map, IfOk};

use kt_rec::{FmPolicytc, FmSummaryXref, FmXref, GulSummaryXref, Item, Vulnerability};
use std::alloc::{AllocError, Global};

/// A row that names, of another table or of a programme, a row, a unit, or a summary with its set.
pub trait Naming<K> {
    // What it names.
    ghost named_of: { Self → K };

    /// What it names.
    fn named(&self) -> K
        ensures { result ≡ named_of self.now };
}

/// What rows name. The error is want of memory.
pub fn names_of<K: Copy + Drop, R: Naming<K>>(
    alloc: Global,
    rows: &[R],
) -> Result<Vec<K>, AllocError>
    ensures value { IfOk result (λ named. named.items ≡ map R.named_of rows.now) }
{
    rows.iter().map(|row| row.named()).collect(alloc)
}

impl Naming<u32> for Item {
    ghost named_of = { λ row. row.coverage_id };

    fn named(&self) -> u32 {
        self.coverage_id
    }
}

impl Naming<u32> for Vulnerability {
    ghost named_of = { λ row. row.damage_bin_id };

    fn named(&self) -> u32 {
        self.damage_bin_id
    }
}

impl Naming<u32> for FmPolicytc {
    ghost named_of = { λ row. row.policytc_id };

    fn named(&self) -> u32 {
        self.policytc_id
    }
}

impl Naming<u32> for FmXref {
    ghost named_of = { λ row. row.agg_id };

    fn named(&self) -> u32 {
        self.agg_id
    }
}

impl Naming<u32> for GulSummaryXref {
    ghost named_of = { λ row. row.item_id };

    fn named(&self) -> u32 {
        self.item_id
    }
}

impl Naming<u32> for FmSummaryXref {
    ghost named_of = { λ row. row.output_id };

    fn named(&self) -> u32 {
        self.output_id
    }
}

/// The unit and the layer of an output.
impl Naming<(u32, u32)> for FmXref {
    ghost named_of = { λ row. (row.agg_id, row.layer_id) };

    fn named(&self) -> (u32, u32) {
        (self.agg_id, self.layer_id)
    }
}

/// The summary of an item, with its set.
impl Naming<(u32, u32)> for GulSummaryXref {
    ghost named_of = { λ row. (row.summaryset_id, row.summary_id) };

    fn named(&self) -> (u32, u32) {
        (self.summaryset_id, self.summary_id)
    }
}

/// The summary of an output, with its set.
impl Naming<(u32, u32)> for FmSummaryXref {
    ghost named_of = { λ row. (row.summaryset_id, row.summary_id) };

    fn named(&self) -> (u32, u32) {
        (self.summaryset_id, self.summary_id)
    }
}
