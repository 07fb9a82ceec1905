//! What is taken of each row of a table, with the keys that it is looked up by.
//! The rule: docs/TABLES.md, "Lookups".
ghost use Rattle.std.specs.Prelude.{◌≡◌, map, IfOk};

use crate::place::Place;
use crate::summaries::UnitSummary;
use kt_exposure::{SummaryUnit, UnitCoverage};
use kt_rec::{FmSummaryXref, FootprintIdx, GulSummaryXref, Item};
use std::alloc::{AllocError, Global};

/// A row of which a part is taken.
pub(crate) trait Part<T> {
    // The part.
    ghost part_of: { Self → T };

    /// The part.
    fn part(&self) -> T
        ensures { result ≡ part_of self.now };
}

/// The part of each row. The error is want of memory.
pub(crate) fn parts_of<T: Copy + Drop, R: Part<T>>(
    alloc: Global,
    rows: &[R],
) -> Result<Vec<T>, AllocError>
    ensures value { IfOk result (λ parts. parts.items ≡ map R.part_of rows.now) }
{
    rows.iter().map(|row| row.part()).collect(alloc)
}

/// An event with the place of its records.
impl Part<(u32, Place)> for FootprintIdx {
    ghost part_of = { λ row. (row.event_id, record { at = row.offset; size = row.size }) };

    fn part(&self) -> (u32, Place) {
        let FootprintIdx {
            event_id,
            offset: at,
            size,
        } = *self;
        (event_id, Place { at, size })
    }
}

/// The summary of an item.
impl Part<SummaryUnit> for GulSummaryXref {
    ghost part_of = { λ row. record { set = row.summaryset_id; summary = row.summary_id; unit = row.item_id } };

    fn part(&self) -> SummaryUnit {
        SummaryUnit {
            set: self.summaryset_id,
            summary: self.summary_id,
            unit: self.item_id,
        }
    }
}

/// The summary of an output.
impl Part<SummaryUnit> for FmSummaryXref {
    ghost part_of = { λ row. record { set = row.summaryset_id; summary = row.summary_id; unit = row.output_id } };

    fn part(&self) -> SummaryUnit {
        SummaryUnit {
            set: self.summaryset_id,
            summary: self.summary_id,
            unit: self.output_id,
        }
    }
}

/// The coverage of an item.
impl Part<UnitCoverage> for Item {
    ghost part_of = { λ row. record { unit = row.item_id; coverage = row.coverage_id } };

    fn part(&self) -> UnitCoverage {
        UnitCoverage {
            unit: self.item_id,
            coverage: self.coverage_id,
        }
    }
}

/// The summary of a unit in a set.
impl Part<UnitSummary> for SummaryUnit {
    ghost part_of = { λ row. record { set = row.set; unit = row.unit; summary = row.summary } };

    fn part(&self) -> UnitSummary {
        UnitSummary {
            set: self.set,
            unit: self.unit,
            summary: self.summary,
        }
    }
}
