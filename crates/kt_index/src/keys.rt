//! The keys of rows.
//! The rule: docs/TABLES.md, "Lookups".
ghost use Rattle.std.specs.Prelude.{◌≡◌, ◌*◌, ◌+◌, ◌^◌};

use crate::by_key::Keyed;
use kt_rec::{FmXref, FootRow, Item, Occurrence, Vulnerability};

/// The key of two numbers: by the first, and then by the second.
pub fn pair_key(first: u32, second: u32) -> u64
    ensures value { result ≡ first * 2 ^ 32 + second }
{
    u64::from(first) * 4_294_967_296 + u64::from(second)
}

impl Keyed for Item {
    ghost use Rattle.std.specs.Prelude.{◌*◌, ◌+◌, ◌^◌};

    ghost key_of = { λ row. row.areaperil_id * 2 ^ 32 + row.vulnerability_id };

    fn key(&self) -> u64 {
        pair_key(self.areaperil_id, self.vulnerability_id)
    }
}

impl Keyed for Occurrence {
    ghost key_of = { λ row. row.event_id };

    fn key(&self) -> u64 {
        u64::from(self.event_id)
    }
}

impl Keyed for FootRow {
    ghost key_of = { λ row. row.areaperil };

    fn key(&self) -> u64 {
        u64::from(self.areaperil)
    }
}

impl Keyed for Vulnerability {
    ghost use Rattle.std.specs.Prelude.{◌*◌, ◌+◌, ◌^◌};

    ghost key_of = { λ row. row.vulnerability_id * 2 ^ 32 + row.intensity_bin_id };

    fn key(&self) -> u64 {
        pair_key(self.vulnerability_id, self.intensity_bin_id)
    }
}

impl Keyed for FmXref {
    ghost key_of = { λ row. row.output_id };

    fn key(&self) -> u64 {
        u64::from(self.output_id)
    }
}
