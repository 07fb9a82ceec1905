//! The events, the items and the coverages of a generated set.
//! The rules: docs/GENERATOR.md, "Exposure".
ghost use Rattle.std.specs.Prelude.{◌≡◌, ◌≤◌, IfOk};
ghost use Rattle.kt_rec.specs.declared.table.Table.TheVariants.{Coverages, Events, Items};
ghost use Rattle.kt_schema.specs.Conversions.{bin};
ghost use Rattle.kt_gen.specs.Exposure.{coverage_count, coverage_of, coverage_rows, event_rows, item_rows};

use crate::draws::Draws;
use crate::groups::{Groups, begin, push_rows, put_groups, put_plain_groups};
use kt_money::Bytes;
use kt_rec::Table;
use kt_schema::{COVERAGES, EVENTS, ITEMS};
use std::alloc::{AllocError, Global};

/// The coverage of an item.
pub(crate) fn coverage_of(item: u32) -> u32
    requires { item ≤ 20000 }
    ensures { result ≡ coverage_of item }
{
    (item + 1) / 2
}

/// The rows of events.
#[derive(Clone, Copy)]
struct EventGroups;

impl Groups for EventGroups {
    ghost use Rattle.std.specs.Prelude.{[], ◌∷◌};
    ghost use Rattle.kt_rec.specs.declared.table.Table.TheVariants.{Events};
    ghost use Rattle.kt_schema.specs.Tables.{kinds_of};
    ghost use Rattle.kt_gen.specs.Exposure.{event_row};

    ghost kinds = { kinds_of Events };

    ghost rows = { λ _ _ event. event_row event ∷ [] };

    ghost before = { λ _ _. 0 };

    fn put(&self, number: u32, _draws: &mut Draws, out: &mut Bytes) -> Result<(), AllocError> {
        push_rows(out, EVENTS.kinds, &[[u64::from(number)]])
    }
}

/// The rows of items.
#[derive(Clone, Copy)]
struct ItemGroups;

impl Groups for ItemGroups {
    ghost use Rattle.std.specs.Prelude.{[], ◌∷◌};
    ghost use Rattle.kt_rec.specs.declared.table.Table.TheVariants.{Items};
    ghost use Rattle.kt_schema.specs.Tables.{kinds_of};
    ghost use Rattle.kt_gen.specs.Exposure.{item_row};

    ghost kinds = { kinds_of Items };

    ghost rows = { λ _ _ item. item_row item ∷ [] };

    ghost before = { λ _ _. 0 };

    fn put(&self, number: u32, _draws: &mut Draws, out: &mut Bytes) -> Result<(), AllocError> {
        let item = u64::from(number);
        let coverage = u64::from(coverage_of(number));
        let earlier = item - 1;
        let row = [item, coverage, 1 + earlier % 50, 1 + earlier % 3, coverage];
        push_rows(out, ITEMS.kinds, &[row])
    }
}

/// The rows of coverages, which begin the draws.
#[derive(Clone, Copy)]
struct CoverageGroups;

impl Groups for CoverageGroups {
    ghost use Rattle.std.specs.Prelude.{[], ◌∷◌, ◌-◌};
    ghost use Rattle.kt_rec.specs.declared.table.Table.TheVariants.{Coverages};
    ghost use Rattle.kt_schema.specs.Tables.{kinds_of};
    ghost use Rattle.kt_gen.specs.Exposure.{coverage_row};

    ghost kinds = { kinds_of Coverages };

    ghost rows = { λ _ seed coverage. coverage_row seed coverage ∷ [] };

    ghost before = { λ _ coverage. coverage - 1 };

    fn put(&self, number: u32, draws: &mut Draws, out: &mut Bytes) -> Result<(), AllocError> {
        let tiv = 10_000_000 + u64::from(draws.next(90_000_000));
        push_rows(out, COVERAGES.kinds, &[[u64::from(number), tiv]])
    }
}

/// The file of the events.
#[tactic(auto, unfolding(crate::specs::Exposure::event_rows))]
pub(crate) fn events_file(alloc: Global, events: u32) -> Result<Bytes, AllocError>
    requires { events ≤ 10000 }
    ensures { IfOk result (λ file. file ≡ bin Events 0 (event_rows events)) }
{
    let mut out = begin(alloc, Table::Events, 0)?;
    put_plain_groups(&EventGroups, 1, events, &mut out)?;
    Ok(out)
}

/// The file of the items.
#[tactic(auto, unfolding(crate::specs::Exposure::item_rows))]
pub(crate) fn items_file(alloc: Global, items: u32) -> Result<Bytes, AllocError>
    requires { items ≤ 9000 }
    ensures { IfOk result (λ file. file ≡ bin Items 0 (item_rows items)) }
{
    let mut out = begin(alloc, Table::Items, 0)?;
    put_plain_groups(&ItemGroups, 1, items, &mut out)?;
    Ok(out)
}

/// The file of the coverages.
#[tactic(auto, unfolding(crate::specs::Exposure::coverage_rows))]
pub(crate) fn coverages_file(
    alloc: Global,
    items: u32,
    draws: &mut Draws,
) -> Result<Bytes, AllocError>
    requires few { items ≤ 9000 }
    requires none { draws.old.made ≡ 0 }
    ensures value { IfOk result (λ file. file ≡ bin Coverages 0 (coverage_rows draws.old.seed items)) }
    ensures made { IfOk result (λ _. draws.new.made ≡ coverage_count items) }

    ensures seed { IfOk result (λ _. draws.new.seed ≡ draws.old.seed) }
{
    let mut out = begin(alloc, Table::Coverages, 0)?;
    put_groups(&CoverageGroups, 1, coverage_of(items), draws, &mut out)?;
    Ok(out)
}
