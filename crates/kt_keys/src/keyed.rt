//! What a row is known by in its table.
//! The rule: docs/CHECKS.md, "Keys".
ghost use Rattle.std.specs.Prelude.{◌≡◌, map, IfOk};

use kt_rec::{
    Coverage, DamageBin, Event, FmPolicytc, FmProfile, FmProgramme, FmSummaryXref, FmXref,
    FootprintIdx, GulSummaryXref, Item, ReturnPeriod, Vulnerability,
};
use std::alloc::{AllocError, Global};

/// A row that its table knows by a key.
pub trait KeyedRow<K> {
    // The key.
    ghost key_of: { Self → K };

    /// The key.
    fn key(&self) -> K
        ensures { result ≡ key_of self.now };
}

/// The keys of rows. The error is want of memory.
pub fn keys_of<K: Copy + Drop, R: KeyedRow<K>>(
    alloc: Global,
    rows: &[R],
) -> Result<Vec<K>, AllocError>
    ensures value { IfOk result (λ keys. keys.items ≡ map R.key_of rows.now) }
{
    rows.iter().map(|row| row.key()).collect(alloc)
}

impl KeyedRow<u32> for Event {
    ghost key_of = { λ row. row.event_id };

    fn key(&self) -> u32 {
        self.event_id
    }
}

impl KeyedRow<u32> for Item {
    ghost key_of = { λ row. row.item_id };

    fn key(&self) -> u32 {
        self.item_id
    }
}

impl KeyedRow<u32> for Coverage {
    ghost key_of = { λ row. row.coverage_id };

    fn key(&self) -> u32 {
        self.coverage_id
    }
}

impl KeyedRow<u32> for FootprintIdx {
    ghost key_of = { λ row. row.event_id };

    fn key(&self) -> u32 {
        self.event_id
    }
}

impl KeyedRow<u32> for DamageBin {
    ghost key_of = { λ row. row.bin_index };

    fn key(&self) -> u32 {
        self.bin_index
    }
}

impl KeyedRow<u32> for FmProfile {
    ghost key_of = { λ row. row.policytc_id };

    fn key(&self) -> u32 {
        self.policytc_id
    }
}

impl KeyedRow<u32> for FmXref {
    ghost key_of = { λ row. row.output_id };

    fn key(&self) -> u32 {
        self.output_id
    }
}

impl KeyedRow<u32> for ReturnPeriod {
    ghost key_of = { λ row. row.return_period };

    fn key(&self) -> u32 {
        self.return_period
    }
}

impl KeyedRow<(u32, u32)> for FmProgramme {
    ghost key_of = { λ row. (row.from_agg_id, row.level_id) };

    fn key(&self) -> (u32, u32) {
        (self.from_agg_id, self.level_id)
    }
}

impl KeyedRow<(u32, u32)> for GulSummaryXref {
    ghost key_of = { λ row. (row.item_id, row.summaryset_id) };

    fn key(&self) -> (u32, u32) {
        (self.item_id, self.summaryset_id)
    }
}

impl KeyedRow<(u32, u32)> for FmSummaryXref {
    ghost key_of = { λ row. (row.output_id, row.summaryset_id) };

    fn key(&self) -> (u32, u32) {
        (self.output_id, self.summaryset_id)
    }
}

impl KeyedRow<(u32, u32, u32)> for Vulnerability {
    ghost key_of = { λ row. (row.vulnerability_id, row.intensity_bin_id, row.damage_bin_id) };

    fn key(&self) -> (u32, u32, u32) {
        (
            self.vulnerability_id,
            self.intensity_bin_id,
            self.damage_bin_id,
        )
    }
}

impl KeyedRow<(u32, u32, u32)> for FmPolicytc {
    ghost key_of = { λ row. (row.layer_id, row.level_id, row.agg_id) };

    fn key(&self) -> (u32, u32, u32) {
        (self.layer_id, self.level_id, self.agg_id)
    }
}
