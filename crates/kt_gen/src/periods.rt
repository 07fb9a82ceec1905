//! The occurrences and the return periods of a generated set.
//! The rules: docs/GENERATOR.md, "Periods".
ghost use Rattle.std.specs.Prelude.{◌≡◌, ◌≤◌, ◌<◌, ◌+◌, ◌*◌, [], ◌∷◌, IfOk};
ghost use Rattle.kt_rec.specs.declared.table.Table.TheVariants.{Occurrence, ReturnPeriods};
ghost use Rattle.kt_schema.specs.Conversions.{bin};
ghost use Rattle.kt_gen.specs.Periods.{occurrence_row, occurrence_rows, return_period_rows};

use crate::draws::Draws;
use crate::groups::{Groups, begin, push_rows, put_groups};
use kt_money::Bytes;
use kt_rec::Table;
use kt_schema::{OCCURRENCE, RETURN_PERIODS};
use std::alloc::{AllocError, Global};

/// How many periods there are.
const PERIODS: u32 = 10_000;

/// An occurrence of an event, made of the next three draws.
fn occurrence(event: u32, draws: &mut Draws) -> [u64; 5]
    requires { draws.old.made < 990000 }
    ensures value { result ≡ occurrence_row draws.old.seed draws.old.made event }
    ensures made { draws.new.made ≡ draws.old.made + 3 }

    ensures seed { draws.new.seed ≡ draws.old.seed }
{
    let period = 1 + u64::from(draws.next(PERIODS));
    let month = 1 + u64::from(draws.next(12));
    let day = 1 + u64::from(draws.next(28));
    [u64::from(event), period, 1, month, day]
}

/// The occurrences of events, behind so many draws.
#[derive(Clone, Copy)]
struct OccurrenceGroups {
    before: u32,
    ghost few: { before ≤ 200000 },
}

impl Groups for OccurrenceGroups {
    ghost use Rattle.std.specs.Prelude.{◌-◌};
    ghost use Rattle.kt_rec.specs.declared.table.Table.TheVariants.{Occurrence};
    ghost use Rattle.kt_schema.specs.Tables.{kinds_of};
    ghost use Rattle.kt_gen.specs.Periods.{event_occurrences};

    ghost kinds = { kinds_of Occurrence };

    ghost rows = { λ occurrences seed event. event_occurrences seed occurrences.before event };

    ghost before = { λ occurrences event. occurrences.before + (event - 1) * 6 };

    fn put(&self, number: u32, draws: &mut Draws, out: &mut Bytes) -> Result<(), AllocError> {
        let first = occurrence(number, draws);
        let second = occurrence(number, draws);
        push_rows(out, OCCURRENCE.kinds, &[first, second])
    }
}

/// The file of the occurrences.
#[tactic(auto, unfolding(crate::specs::Periods::occurrence_rows))]
pub(crate) fn occurrences_file(
    alloc: Global,
    events: u32,
    draws: &mut Draws,
) -> Result<Bytes, AllocError>
    requires few { events ≤ 10000 }
    requires made { draws.old.made ≤ 200000 }
    ensures { IfOk result (λ file. file ≡ bin Occurrence 10000 (occurrence_rows draws.old.seed draws.old.made events)) }
{
    let mut out = begin(alloc, Table::Occurrence, PERIODS)?;
    let groups = OccurrenceGroups { before: draws.made };
    put_groups(&groups, 1, events, draws, &mut out)?;
    Ok(out)
}

/// The file of the return periods.
#[tactic(auto, unfolding(crate::specs::Periods::return_period_rows))]
pub(crate) fn return_periods_file(alloc: Global) -> Result<Bytes, AllocError>
    ensures { IfOk result (λ file. file ≡ bin ReturnPeriods 0 return_period_rows) }
{
    let mut out = begin(alloc, Table::ReturnPeriods, 0)?;
    push_rows(
        &mut out,
        RETURN_PERIODS.kinds,
        &[[1000], [500], [250], [100], [50], [10]],
    )?;
    Ok(out)
}
